//! The words of a problem's text, each after a space.
ghost use Rattle.std.specs.Prelude.{◌≡◌, ◌++◌, ◌∷◌, decimal, OnOk};
ghost use Rattle.std.specs.Fmt.{signed_decimal};
ghost use Rattle.cgm_atom.specs.AtomWords.{atom_word};
ghost use Rattle.cgm_encode.specs.ProblemText.{guard_word, term_word};

use cgm_atom::{Atom, Var};
use cgm_base::OutOfMemory;
use itoa::Buffer;

fn push_digits(out: &mut Vec<u8>, n: u32) -> Result<(), OutOfMemory>
    ensures { OnOk result (out.new.items ≡ out.old.items ++ decimal n) }
{
    out.extend_from_slice(Buffer::new().format(n).as_bytes())
}

fn push_signed_digits(out: &mut Vec<u8>, z: i64) -> Result<(), OutOfMemory>
    ensures { OnOk result (out.new.items ≡ out.old.items ++ signed_decimal z) }
{
    out.extend_from_slice(Buffer::new().format(z).as_bytes())
}

pub(crate) fn push_number(out: &mut Vec<u8>, n: u32) -> Result<(), OutOfMemory>
    ensures { OnOk result (out.new.items ≡ out.old.items ++ 32 ∷ decimal n) }
{
    out.push(b' ')?;
    push_digits(out, n)
}

pub(crate) fn push_value(out: &mut Vec<u8>, z: i64) -> Result<(), OutOfMemory>
    ensures { OnOk result (out.new.items ≡ out.old.items ++ 32 ∷ signed_decimal z) }
{
    out.push(b' ')?;
    push_signed_digits(out, z)
}

pub(crate) fn push_atom(out: &mut Vec<u8>, atom: &Atom) -> Result<(), OutOfMemory>
    ensures { OnOk result (out.new.items ≡ out.old.items ++ 32 ∷ atom_word atom.now) }
{
    push_number(out, atom.var.0)?;
    let relation = if atom.at_least { b">=" } else { b"<=" };
    out.extend_from_slice(relation)?;
    push_signed_digits(out, atom.k)
}

/// A guard's atom, or `-` where there is none.
pub(crate) fn push_guard(out: &mut Vec<u8>, guard: &Option<Atom>) -> Result<(), OutOfMemory>
    ensures { OnOk result (out.new.items ≡ out.old.items ++ 32 ∷ guard_word guard.now) }
{
    match guard {
        None => out.extend_from_slice(b" -"),
        Some(a) => push_atom(out, a),
    }
}

pub(crate) fn push_term(out: &mut Vec<u8>, term: &(i64, Var)) -> Result<(), OutOfMemory>
    ensures { OnOk result (out.new.items ≡ out.old.items ++ 32 ∷ term_word term.now) }
{
    push_value(out, term.0)?;
    out.push(b'*')?;
    push_digits(out, term.1.0)
}
