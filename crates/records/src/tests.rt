use crate::dead::DeadRecord;
use ordered::tables::{InsertError, Table};

fn dead(dataset: u32, birth: u32, block: u32) -> DeadRecord {
    DeadRecord {
        dataset,
        birth,
        block,
    }
}

// Dataset comes before birth and birth before block; a key goes in once, and a full table takes no more.
#[test]
fn inserted_in_order(rt: HostRuntime) {
    let mut places = [dead(0, 0, 0); 3];
    let mut table = Table::new(&mut places);
    assert_eq!(rt; table.insert(dead(2, 1, 9)), Ok(()));
    assert_eq!(rt; table.insert(dead(1, 7, 4)), Ok(()));
    assert_eq!(rt; table.insert(dead(1, 7, 4)), Err(InsertError::Present));
    assert_eq!(rt; table.insert(dead(1, 6, 8)), Ok(()));
    assert_eq!(rt; table.insert(dead(3, 1, 1)), Err(InsertError::Full));
    assert_eq!(rt; table.find(dead(1, 6, 8)), Some(0));
    assert_eq!(rt; table.find(dead(1, 7, 4)), Some(1));
    assert_eq!(rt; table.find(dead(2, 1, 9)), Some(2));
    assert_eq!(rt; table.rank(dead(1, 7, 5)), 2);
}

// What is taken out is found no more, and its neighbours still are.
#[test]
fn removed_alone(rt: HostRuntime) {
    let mut places = [dead(0, 0, 0); 4];
    let mut table = Table::new(&mut places);
    assert_eq!(rt; table.insert(dead(5, 2, 3)), Ok(()));
    assert_eq!(rt; table.insert(dead(5, 1, 7)), Ok(()));
    assert_eq!(rt; table.insert(dead(4, 9, 9)), Ok(()));
    assert_eq!(rt; table.remove(dead(5, 1, 7)), Some(dead(5, 1, 7)));
    assert_eq!(rt; table.remove(dead(5, 1, 7)), None);
    assert_eq!(rt; table.get(dead(5, 1, 7)), None);
    assert_eq!(rt; table.get(dead(5, 2, 3)), Some(dead(5, 2, 3)));
    assert_eq!(rt; table.len(), 2);
}

// A dataset's records are those from its lowest key on and below the lowest of the next dataset.
#[test]
fn part_of_a_dataset(rt: HostRuntime) {
    let mut places = [dead(0, 0, 0); 4];
    let mut table = Table::new(&mut places);
    assert_eq!(rt; table.insert(dead(7, 3, 2)), Ok(()));
    assert_eq!(rt; table.insert(dead(6, 1, 1)), Ok(()));
    assert_eq!(rt; table.insert(dead(7, 1, 5)), Ok(()));
    assert_eq!(rt; table.insert(dead(8, 1, 0)), Ok(()));
    let (part, before) = table.part(dead(7, 0, 0), dead(8, 0, 0));
    assert_eq!(rt; before, 1);
    assert_eq!(rt; part.len(), 2);
    assert_eq!(rt; part.first().copied(), Some(dead(7, 1, 5)));
    assert_eq!(rt; part.last().copied(), Some(dead(7, 3, 2)));
    let (none, _) = table.part(dead(9, 0, 0), dead(7, 0, 0));
    assert_eq!(rt; none.len(), 0);
}

// What lies in a part is taken out, and what lies below and above it stays.
#[test]
fn part_taken_out(rt: HostRuntime) {
    let mut places = [dead(0, 0, 0); 4];
    let mut table = Table::new(&mut places);
    assert_eq!(rt; table.insert(dead(7, 3, 2)), Ok(()));
    assert_eq!(rt; table.insert(dead(6, 1, 1)), Ok(()));
    assert_eq!(rt; table.insert(dead(7, 1, 5)), Ok(()));
    assert_eq!(rt; table.insert(dead(8, 1, 0)), Ok(()));
    table.remove_part(dead(8, 0, 0), dead(7, 0, 0));
    assert_eq!(rt; table.len(), 4);
    table.remove_part(dead(7, 0, 0), dead(8, 0, 0));
    assert_eq!(rt; table.len(), 2);
    assert_eq!(rt; table.find(dead(6, 1, 1)), Some(0));
    assert_eq!(rt; table.find(dead(8, 1, 0)), Some(1));
}

// A dataset's list joins a higher one past the list between them, and a lower one past it again.
#[test]
fn lists_joined(rt: HostRuntime) {
    let mut places = [dead(0, 0, 0); 5];
    let mut table = Table::new(&mut places);
    assert_eq!(rt; table.insert(dead(2, 4, 1)), Ok(()));
    assert_eq!(rt; table.insert(dead(2, 9, 2)), Ok(()));
    assert_eq!(rt; table.insert(dead(3, 5, 3)), Ok(()));
    assert_eq!(rt; table.insert(dead(5, 6, 4)), Ok(()));
    table.join_list(2, 5);
    assert_eq!(rt; table.list(2).len(), 0);
    assert_eq!(rt; table.find(dead(3, 5, 3)), Some(0));
    assert_eq!(rt; table.find(dead(5, 4, 1)), Some(1));
    assert_eq!(rt; table.find(dead(5, 6, 4)), Some(2));
    assert_eq!(rt; table.find(dead(5, 9, 2)), Some(3));
    table.join_list(5, 1);
    assert_eq!(rt; table.list(1).len(), 3);
    assert_eq!(rt; table.find(dead(1, 4, 1)), Some(0));
    assert_eq!(rt; table.find(dead(1, 9, 2)), Some(2));
    assert_eq!(rt; table.find(dead(3, 5, 3)), Some(3));
    table.join_list(4, 3);
    assert_eq!(rt; table.len(), 4);
}
