// The letter by which a sheet names its latency rule.
ghost use Rattle.std.specs.Prelude.{◌≡◌, [], ◌∷◌, Some};
ghost use Rattle.std.specs.Option.{ok_or};
ghost use Rattle.chip.specs.declared.refusal.Refusal.TheVariants.{RuleLetter};
ghost use Rattle.sheet.specs.Letters.{letter_code, letter_named};

use chip::Refusal;
use std::fmt;

#[derive(Clone, Copy, PartialEq, Eq, Debug)]
pub enum Letter {
    D,
    J,
    L,
}

// The letter that a character stands for; refuses any other character.
impl TryFrom<char> for Letter {
    type Error = Refusal;

    ghost try_from_gives = { λ c r. r ≡ ok_or (letter_named c) RuleLetter };

    fn try_from(c: char) -> Result<Letter, Refusal> {
        match c {
            'D' => Ok(Letter::D),
            'J' => Ok(Letter::J),
            'L' => Ok(Letter::L),
            _ => Err(Refusal::RuleLetter),
        }
    }
}

// The character that stands for the letter.
impl From<Letter> for char {
    ghost from_gives = { λ letter c. c ≡ letter_code letter };

    fn from(letter: Letter) -> char {
        match letter {
            Letter::D => 'D',
            Letter::J => 'J',
            Letter::L => 'L',
        }
    }
}

// As its character.
impl fmt::Display for Letter {
    ghost output = { λ letter. Some (letter_code letter ∷ []) };

    fn fmt<W: fmt::Write>(&self, f: &mut fmt::Formatter<W>) -> fmt::Result {
        char::from(*self).fmt(f)
    }
}
