ghost use Rattle.std.specs.Prelude.{◌≡◌, ℕ, ◌+◌, ◌≤◌, ◌^◌, List, ◌++◌, min, length, drop, decimal, IfOk, OnOk, OnErr};
ghost use Rattle.std.specs.Str.Parse.{digits_value};
ghost use Rattle.coati_text.specs.Decimal.{AreDigits, decimal_at, digit_count, digit_run, number_of};

/// Why no number was read.
#[derive(Clone, Copy, Debug, PartialEq, Eq)]
pub enum NumFault {
    /// The digits at the place are none, or begin with a zero that is not the only one.
    NotDecimal,
    /// The decimal at the place is above the greatest number that was wanted.
    TooBig,
}

/// A place in a text, from which numbers are read.
#[derive(Clone, Copy, Debug)]
pub struct Cursor<'a> {
    /// The text.
    pub bytes: &'a [u8],
    /// How many bytes of the text lie behind the cursor.
    pub place: usize,
    ghost in_range: { place ≤ length bytes.now },
}

impl<'a> Cursor<'a> {
    ghost use Rattle.coati_text.specs.Unread.{unread};

    /// Reads the longest run of digits at the place, which must be a decimal of at most `max`, and
    /// moves behind it. A refusal moves nothing.
    pub fn read_decimal(&mut self, max: u32) -> Result<u32, NumFault>
        ensures number { result ≡ decimal_at max (unread self.old) }
        ensures text { self.new.bytes.now ≡ self.old.bytes.now }
        ensures moved { OnOk result (self.new.place
            ≡ self.old.place + digit_count (unread self.old)) }
        ensures stays { OnErr result (self.new.place ≡ self.old.place) }

        // What was read is the one decimal of the number, and a decimal with no digit behind it is
        // read.
        ensures spelled { IfOk result (λ n. unread self.old ≡ decimal n ++ unread self.new) }
        ensures read { (n : ℕ) (rest : List ℕ) → n ≤ max → digit_count rest ≡ 0
            → unread self.old ≡ decimal n ++ rest → result ≡ Ok n }
    {
        let run = digit_run(&self.bytes[self.place..]);
        let value = number_of(run, max)?;
        self.place += run.len();
        Ok(value)
    }
}

/// The digits that stand at the front.
fn digit_run(text: &[u8]) -> &[u8]
    ensures run { result.now ≡ digit_run text.now }
    ensures digits { AreDigits result.now }
    ensures within { length result.now ≤ length text.now }
{
    let count = digit_count(text);
    &text[..count]
}

/// How many digits stand at the front.
fn digit_count(text: &[u8]) -> usize
    ensures count { result ≡ digit_count text.now }
    ensures within { result ≤ length text.now }
{
    text.iter().take_while(|byte| byte.is_ascii_digit()).count()
}

/// The number that a run of digits spells.
fn number_of(run: &[u8], max: u32) -> Result<u32, NumFault>
    requires { AreDigits run.now }
    ensures { result ≡ number_of max run.now }
{
    match run {
        [] | [b'0', _, ..] => return Err(NumFault::NotDecimal),
        _ => {}
    }
    let value = value_up_to(run, u64::from(max) + 1);
    if value > u64::from(max) {
        return Err(NumFault::TooBig);
    }
    Ok(value as u32)
}

/// The value of the digits, or the cap where that is less: a run may be longer than any number has
/// digits.
fn value_up_to(run: &[u8], cap: u64) -> u64
    requires digits { AreDigits run.now }
    requires small { cap ≤ 2 ^ 32 }
    ensures { result ≡ min (digits_value 10 run.now) cap }
{
    let mut value = 0;
    for digit in run {
        value = (value * 10 + u64::from(*digit - b'0')).min(cap);
    }
    value
}
