// Channels and values: the numbers in a line's fields.
ghost use Rattle.std.specs.Prelude.{◌≡◌, ◌+◌, ◌-◌, ◌*◌, ◌^◌, ◌<◌, ◌≤◌, length, take, MatchResult};
ghost use Rattle.std.specs.Char.{is_ascii_digit};
ghost use Rattle.std.specs.List.{prefix_len};
ghost use Rattle.lines.specs.declared.fault.NumberFault.TheVariants.{Form};
ghost use Rattle.lines.specs.Digits.{leading, worth, numeral};
ghost use Rattle.lines.specs.Fields.{shown};
ghost use Rattle.lines.specs.Forms.{Channel, ChannelForm, Value, ValueForm, Reads};
ghost use Rattle.lines.specs.Numbers.{channel_of, size_of, value_of};

use crate::fault::NumberFault;
use crate::part::Field;

// How many digits a text begins with, counted no further than `most`.
fn leading_digits(text: &[u8], most: usize) -> usize
    ensures { result ≡ leading most text.now }
{
    text.iter()
        .take(most)
        .take_while(|byte| byte.is_ascii_digit())
        .count()
}

// The number that up to six digits write. A loop, since a fold's step has to be safe after any number, and this one is not.
fn written(digits: &[u8]) -> u32
    requires few { length digits.now ≤ 6 }
    requires each { prefix_len is_ascii_digit digits.now ≡ length digits.now }
    ensures value { result ≡ worth digits.now }
    ensures small { result < 10 ^ length digits.now }
{
    let mut value = 0;
    for byte in digits {
        value = value * 10 + u32::from(*byte - b'0');
    }
    value
}

// A text of 1 to `most` digits; else how far the text follows that form. Such an error is a place in the text, which
// callers move on by what stands before it.
fn numeral_of(text: &[u8], most: usize) -> Result<u32, usize>
    requires { most ≤ 6 }
    ensures is { result ≡ numeral most text.now }
    ensures ok { MatchResult result (λ n. (n < 10 ^ length text.now) × (1 ≤ length text.now) × (length text.now ≤ most)) (λ at. at ≤ length text.now) }
{
    let count = leading_digits(text, most);
    if count > 0 && count == text.len() {
        Ok(written(text))
    } else {
        Err(count)
    }
}

// How many thousandths the last of so many digits behind a point counts.
fn last_place(digits: usize) -> u32
    requires { (1 ≤ digits) × (digits ≤ 3) }
    ensures { result ≡ 10 ^ (3 - digits) }
{
    10_u32.pow(3 - digits as u32)
}

// The thousandths of a value without its sign; else how far the text follows the form of one.
fn thousandths(text: &[u8]) -> Result<u32, usize>
    ensures is { result ≡ size_of text.now }
    ensures small { MatchResult result (λ n. n < 1_000_000_000) (λ at. at ≤ length text.now) }
{
    let count = leading_digits(text, 6);
    if count == 0 {
        return Err(0);
    }
    let (whole, rest) = text.split_at(count);
    let whole = written(whole) * 1000;
    match rest {
        [] => Ok(whole),
        [b'.', fraction @ ..] => {
            let parts = numeral_of(fraction, 3).map_err(|at| count + 1 + at)?;
            Ok(whole + parts * last_place(fraction.len()))
        }
        _ => Err(count),
    }
}

impl Field<'_> {
    // The channel that the field writes: 1 to 3 digits, at most 255.
    pub fn channel(self) -> Result<u8, NumberFault>
        ensures is { result ≡ channel_of (shown self.entry) }
        ensures reads { Reads Channel ChannelForm (shown self.entry) result }
    {
        let field = self.number;
        let number = numeral_of(self.bytes, 3).map_err(|offset| NumberFault::Form {
            field,
            offset,
        })?;
        u8::try_from(number).map_err(|_| NumberFault::Limit { field })
    }

    // The value that the field writes, in signed thousandths: an optional minus, which covers the whole number,
    // then 1 to 6 digits, then optionally a point and 1 to 3 digits. Two arms, since the minus turns the sign and moves the offset.
    pub fn value(self) -> Result<i32, NumberFault>
        ensures is { result ≡ value_of (shown self.entry) }
        ensures reads { Reads Value ValueForm (shown self.entry) result }
    {
        let field = self.number;
        match self.bytes {
            // The minus stands before the size's first byte.
            [b'-', digits @ ..] => {
                let size = thousandths(digits).map_err(|at| NumberFault::Form {
                    field,
                    offset: at + 1,
                })?;
                Ok(-(size as i32))
            }
            digits => {
                let size = thousandths(digits).map_err(|offset| NumberFault::Form {
                    field,
                    offset,
                })?;
                Ok(size as i32)
            }
        }
    }
}
