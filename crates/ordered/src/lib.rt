// Tables of records in the order of their keys, in memory that the caller lends. A kind of key is anything whose `Ord`
// is a total order, a kind of record anything that has a key; a table holds each key at most once and is searched by
// halving. Records can belong to lists, each of them a run of the table.
//
// Proved once for all kinds, of a table in order: each call answers what the records before it say, leaves exactly the
// records that it names, and leaves the table in order; a call for one key changes what is found under that key alone.
// Joining a list to another, with no memory of its own, does so where no record that moves gets the key of one that is
// there. Of any table, in order or not, whatever its count: every call returns, none changes a place
// past the records that it leaves, and one that refuses (the key is there, no place is left, nothing is found) changes
// neither a place nor the count.
#![tactic(auto)]

pub mod keys;
pub mod lists;
pub mod records;
pub mod tables;
