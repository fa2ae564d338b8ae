// An input, and its lines.
ghost use Rattle.std.specs.Prelude.{◌≡◌, ◌≤◌, length, ⊤, IfOk, IfSome};
ghost use Rattle.std.specs.Iterator.{at_most};
ghost use Rattle.intake.specs.declared.input.TheConstants.{MOST};
ghost use Rattle.intake.specs.Inputs.{Next, TakenWhole};

use lines::cut;
use std::alloc::Global;
use std::io;
use std::io::Read;
use thiserror::Error;

// The most bytes of an input that are taken: one MiB.
pub const MOST: u64 = 1_048_576;

// Why an input is not taken.
#[derive(Debug, Drop, Error)]
pub enum InputError {
    #[error("the input is over 1,048,576 bytes")]
    TooLong,
    #[error(transparent)]
    Io(#[from] io::Error),
}

// The whole of an input, if it is not over the most bytes.
pub fn read_input<R: Read + Drop>(alloc: Global, input: R) -> Result<Vec<u8>, InputError>
    ensures few { IfOk result (λ text. length text.items ≤ MOST) }
    ensures whole { IfSome (R.remaining input) (TakenWhole MOST result) }
{
    let mut text = Vec::new(alloc);
    input
        .take(MOST + 1)
        .read_to_end(&mut text)
        .map_err(InputError::Io)?;
    if text.len() as u64 > MOST {
        return Err(InputError::TooLong);
    }
    Ok(text)
}

// The lines of a text that are still to come.
#[derive(Clone, Copy)]
pub struct Lines<'a> {
    rest: &'a [u8],
}

// The lines of a text. A line feed at its very end begins no further line.
pub fn lines_of(text: &[u8]) -> Lines<'_>
    ensures { result.rest.now ≡ text.now }
{
    Lines { rest: text }
}

impl<'a> Iterator for Lines<'a> {
    type Item = &'a [u8];

    ghost can_next = { λ _. ⊤ };

    ghost next_gives = { λ before line after. Next before.rest.now line after.rest.now };

    ghost remaining = { λ lines. at_most (length lines.rest.now) };

    fn next(&mut self) -> Option<&'a [u8]> {
        if self.rest.is_empty() {
            return None;
        }
        let (line, after) = cut(self.rest, b'\n');
        self.rest = after.unwrap_or(&[]);
        Some(line)
    }
}
