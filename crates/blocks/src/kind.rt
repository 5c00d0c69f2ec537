ghost use Rattle.std.specs.Prelude.{◌≡◌};
ghost use Rattle.aries.specs.ByLetter.{row, codes};
ghost use Rattle.aries.specs.Forms.{plain_kind, kind_of};

use aries::block::Kind;
use aries::word::Words;

// The kind of a block with a code, if the code is listed.
fn coded_kind(code: u32) -> Option<Kind>
    ensures { result ≡ row codes code }
{
    Some(match code {
        26 => Kind::G26,
        28 => Kind::G28,
        29 => Kind::G29,
        36 => Kind::G36,
        37 => Kind::G37,
        50 => Kind::G50,
        66 => Kind::G66,
        70 => Kind::G70,
        72 => Kind::G72,
        73 => Kind::G73,
        75 => Kind::G75,
        76 => Kind::G76,
        92 => Kind::G92,
        93 => Kind::G93,
        98 => Kind::G98,
        _ => return None,
    })
}

// The kind of a block without a code.
fn plain_kind(words: &Words) -> Kind
    ensures { result ≡ plain_kind words.now.letters }
{
    if words.has(b'M') {
        Kind::LetterM
    } else if words.has(b'B') {
        Kind::LetterB
    } else if words.has(b'U') {
        Kind::LetterU
    } else if words.has(b'V') {
        Kind::LetterV
    } else if words.has(b'W') {
        Kind::LetterW
    } else if words.has(b'X') | words.has(b'Y') {
        Kind::Position
    } else {
        Kind::Lone
    }
}

// The kind of a block, if it has one: by its code, or else by its letters.
#[tactic(auto, unfolding(aries::specs::Forms::kind_of))]
pub fn kind_of(words: &Words) -> Option<Kind>
    ensures { result ≡ kind_of words.now }
{
    match words.code {
        Some(code) => coded_kind(code),
        None => Some(plain_kind(words)),
    }
}
