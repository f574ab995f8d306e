ghost use Rattle.std.specs.Prelude.{◌≡◌, ◌≤◌};
ghost use Rattle.ord_types.specs.Members.{fault_bound, quorum, majority};

/// How many of n members may be Byzantine: (n - 1) / 3, rounded down (Castro and Liskov 2002).
pub fn fault_bound(n: u32) -> u32
    requires some { 1 ≤ n }
    requires few { n ≤ 31 }
    ensures { result ≡ fault_bound n }
{
    (n - 1) / 3
}

/// How many of n members make a quorum: (n + f + 1) / 2, rounded up (SmartBFT).
pub fn quorum(n: u32) -> u32
    requires some { 1 ≤ n }
    requires few { n ≤ 31 }
    ensures { result ≡ quorum n }
{
    (n + fault_bound(n)) / 2 + 1
}

/// More than half of n members (Ongaro and Ousterhout 2014).
pub fn majority(n: u32) -> u32
    requires some { 1 ≤ n }
    requires few { n ≤ 31 }
    ensures { result ≡ majority n }
{
    n / 2 + 1
}
