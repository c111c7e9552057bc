// The refusals of document 01, each with its number and place.
#![tactic(auto)]

ghost use Rattle.std.specs.Prelude.{◌≡◌};
ghost use Rattle.refusal.specs.Refusals.{number_of, place_of};
ghost use Rattle.refusal.specs.Verdicts.{are_stations};

// The most stations of a row.
pub const MOST_STATIONS: usize = 64;

#[derive(Clone, Copy, PartialEq, Eq)]
pub enum Refusal {
    // stations not 1 to 64
    Stations,
    // holes, or the length of a pitch list, above the stations
    Holes,
    // a byte other than 0 or 1, with the place of the first
    Symbol(usize),
    // length of a limit, of a row asked for its seat, or of a second row, differs from the stations
    Limit,
    // kind not 1 to 3; for a seat, not 1 or 2
    Kind,
    // prefix longer than the stations
    Prefix,
    // a non-empty pitch list that doesn't add up to the stations
    PitchSum,
    // a row with holes that ends in 0, asked for its pitch list
    LastPlain,
    // output buffer too short
    Buffer,
    // program text not as described, with the line
    Text(usize),
    // a pitch of 0, with the place of the first in the list
    ZeroPitch(usize),
    // a name above 7
    Name,
    // seat 0, or above the total
    Seat,
    // the walk has ended
    Ended,
    // allowance spent
    Spent,
    // unfit walk record
    Unfit,
    // nothing put under the name
    NothingPut,
    // the offer is not what a look at the walk gives
    NotOffered,
}

// Whether a row may have n stations.
pub fn are_stations(n: usize) -> bool
    ensures { result ≡ are_stations n }
{
    1 <= n && n <= MOST_STATIONS
}

// The refusal's number.
pub fn number(r: Refusal) -> u8
    ensures { result ≡ number_of r }
{
    match r {
        Refusal::Stations => 1,
        Refusal::Holes => 2,
        Refusal::Symbol(_) => 3,
        Refusal::Limit => 4,
        Refusal::Kind => 5,
        Refusal::Prefix => 6,
        Refusal::PitchSum => 7,
        Refusal::LastPlain => 8,
        Refusal::Buffer => 9,
        Refusal::Text(_) => 10,
        Refusal::ZeroPitch(_) => 11,
        Refusal::Name => 12,
        Refusal::Seat => 13,
        Refusal::Ended => 20,
        Refusal::Spent => 21,
        Refusal::Unfit => 22,
        Refusal::NothingPut => 23,
        Refusal::NotOffered => 24,
    }
}

// The refusal's place, 0 unless it names one.
pub fn place(r: Refusal) -> usize
    ensures { result ≡ place_of r }
{
    match r {
        Refusal::Symbol(p) | Refusal::ZeroPitch(p) => p,
        Refusal::Text(line) => line,
        _ => 0,
    }
}
