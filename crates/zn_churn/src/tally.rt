// What replies add up to.
ghost use Rattle.std.specs.Prelude.{◌≡◌, ◌<◌, ◌≤◌, ◌-◌, ◌^◌, IfSome};
ghost use Rattle.zn_churn.specs.Tally.{begins, digit_behind, number_on, count_in, read_by, is_other, nothing, counted, IsWithin};
ghost use Rattle.zn_churn.specs.declared.tally.TheConstants.{MOST_COUNT};

/// The greatest count that is looked for in a reply.
const MOST_COUNT: u64 = 4_294_967_295;

/// What lines and their replies add up to.
#[derive(Clone, Copy, Debug, PartialEq, Eq)]
pub struct Tally {
    /// How many lines there were.
    pub lines: u64,
    /// How many replies begin with `ok`.
    pub ok: u64,
    /// How many replies begin otherwise.
    pub errors: u64,
    /// How many bytes were read.
    pub read: u64,
}

/// Whether some bytes begin with others.
fn begins(front: &[u8], bytes: &[u8]) -> bool
    ensures { result ≡ begins front.now bytes.now }
{
    bytes.starts_with(front)
}

/// The number with one more digit behind it, if the byte is one and the number is then a count.
fn with_digit(number: u64, byte: u8) -> Option<u64>
    requires { number ≤ MOST_COUNT }
    ensures digit { result ≡ digit_behind number byte }
    ensures most { IfSome result (λ longer. longer ≤ MOST_COUNT) }
{
    if !byte.is_ascii_digit() {
        return None;
    }
    let longer = number * 10 + u64::from(byte - b'0');
    (longer <= MOST_COUNT).then_some(longer)
}

/// The number that some bytes begin with: 0 where the first is no digit.
fn number_at(bytes: &[u8]) -> u64
    ensures number { result ≡ number_on 0 bytes.now }
    ensures most { result ≤ MOST_COUNT }
{
    let mut number = 0;
    for byte in bytes {
        match with_digit(number, *byte) {
            Some(longer) => number = longer,
            None => return number,
        }
    }
    number
}

/// The count that a reply tells: 0 where it tells none.
pub fn count_in(reply: &[u8]) -> u64
    ensures count { result ≡ count_in reply.now }
    ensures most { result ≤ MOST_COUNT }
{
    if begins(b"ok ", reply) {
        number_at(&reply[3..])
    } else {
        0
    }
}

/// How many bytes a line read, by its reply.
fn read_by(line: &[u8], reply: &[u8]) -> u64
    ensures read { result ≡ read_by line.now reply.now }
    ensures most { result ≤ MOST_COUNT }
{
    if begins(b"read ", line) {
        count_in(reply)
    } else {
        0
    }
}

impl Tally {
    /// That of no line.
    pub fn nothing() -> Tally
        ensures tally { result ≡ nothing }
        ensures within { IsWithin result }
    {
        Tally {
            lines: 0,
            ok: 0,
            errors: 0,
            read: 0,
        }
    }

    /// Counts a line and its reply, which is empty where it has none.
    pub fn count(&mut self, line: &[u8], reply: &[u8])
        requires few { self.old.lines < 2 ^ 32 - 1 }
        requires within { IsWithin self.old }
        ensures tally { self.new ≡ counted self.old line.now reply.now }
        ensures within { IsWithin self.new }
    {
        let is_ok = begins(b"ok", reply);
        self.lines += 1;
        self.ok += u64::from(is_ok);
        self.errors += u64::from(!is_ok && !reply.is_empty());
        self.read += read_by(line, reply);
    }
}
