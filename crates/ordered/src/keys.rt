// Keys in a total order.
ghost use Rattle.std.specs.Prelude.{Bool, nat_lt};
ghost use Rattle.std.proofs.Common.{rules};
ghost use Rattle.ordered.specs.Order.{IsStrictPart};

// A kind of key. `below` is its order, as the test that the definitions of tables take, and `cmp` answers by it.
pub trait Key: Ord + Copy {
    ghost below: { Self → Self → Bool };

    ghost laws: { IsStrictPart below Self.cmp };
}

// Plain numbers, in their order.
impl Key for u32 {
    ghost below = { nat_lt };

    ghost laws = { Prim.search rules };
}
