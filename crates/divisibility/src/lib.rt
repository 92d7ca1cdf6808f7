// Divisibility of whole numbers: remainders, greatest common divisors, least common multiples. Numbers whose products are taken lie
// below 2^32, which each contract says: as u32 they would be cast by every caller, whose moduli are u64.

#![tactic(auto)]

pub mod bezout;
pub mod equations;
pub mod euclid;
pub mod remainders;
