// Why a travel cannot be made.
ghost use Rattle.std.specs.Prelude.{◌≡◌};
ghost use Rattle.travel.specs.Refusals.{travel_number};

#[derive(Clone, Copy)]
pub enum TravelRefusal {
    // ends that are out of order or out of bounds, or a home that is not between them
    Ends,
    // a gap that is out of bounds, or wider than the one at home
    Gap,
}

impl TravelRefusal {
    // Not a From: `u32::from` would not say which number.
    pub fn number(self) -> u32
        ensures { result ≡ travel_number self }
    {
        match self {
            TravelRefusal::Ends => 51,
            TravelRefusal::Gap => 52,
        }
    }
}
