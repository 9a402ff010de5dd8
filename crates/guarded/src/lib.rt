// Guarded words (docs/RULES.md, §17): the last information bit is a marker, 0, and the other k - 1
// bits are a message. A link that is turned over sets the marker. Here is what the formats over
// them share: their refusals and the number that bits say; in specs/ the guard and its theorems.
#![tactic(auto)]

ghost use Rattle.std.specs.Prelude.{◌≡◌, ◌≤◌, length};
ghost use Rattle.words.specs.Bits.{Bits};
ghost use Rattle.guarded.specs.Guard.{of_digits};
ghost use Rattle.guarded.specs.Faults.{fault_carries};
ghost use Rattle.guarded.specs.declared.Fault.TheVariants.{Link};

use code::{Refusal, Shown};

// Why a guarded word, or what it says, is refused.
#[derive(Clone, Copy)]
pub enum Fault {
    // by the search's tests, or the word's length
    Link(Refusal),
    // the marker is set
    Marker,
    // a telegram's tilt is above the largest
    Tilt,
    // a telegram's tilt of zero with direction 1
    ZeroTilt,
    // a number is too large for its place: a cylinder, a direction, a rod position
    Field,
}

// The number whose binary digits these are, most significant first.
// stays: no method of the library reads a slice of bits as a number
pub fn number_of(bits: &[u8]) -> u32
    requires { Bits bits.now × (length bits.now ≤ 16) }
    ensures { result ≡ of_digits bits.now }
{
    let mut n = 0;
    for bit in bits {
        n = 2 * n + u32::from(*bit);
    }
    n
}

// A call over the search passes its refusals on.
impl From<Refusal> for Fault {
    ghost from_gives = { λ why fault. fault ≡ Link why };

    fn from(refusal: Refusal) -> Fault {
        Fault::Link(refusal)
    }
}

impl Fault {
    // What the fault reports: what the search's refusal does, else only its number.
    pub fn shown(self) -> Shown
        ensures { (result.number ≡ (fault_carries self).number)
            × (result.place ≡ (fault_carries self).place)
            × (result.penalty ≡ (fault_carries self).penalty)
            × (result.visits ≡ (fault_carries self).visits) }
    {
        let none = Shown::default();
        match self {
            Fault::Link(why) => why.shown(),
            Fault::Marker => Shown { number: 13, ..none },
            Fault::Tilt => Shown { number: 14, ..none },
            Fault::ZeroTilt => Shown { number: 15, ..none },
            Fault::Field => Shown { number: 16, ..none },
        }
    }
}
