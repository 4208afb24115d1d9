// Labels of volumes.
ghost use Rattle.std.specs.Prelude.{◌≡◌, [], length, Some, None, if◌then◌else◌, IsTrue};
ghost use Rattle.std.specs.List.{prefix_len, take_while};
ghost use Rattle.zn_model.specs.SuperBlock.{is_label, is_label_byte, padded};

use std::marker::Model;

/// The bytes of a block that a label has room in.
pub(crate) const LABEL_SIZE: usize = 64;

/// The label of a volume: at most 64 printable bytes, none of them a blank.
#[derive(Clone, Copy, Debug, PartialEq, Eq)]
pub struct Label {
    /// The text, and zeros behind it.
    bytes: [u8; LABEL_SIZE],
    len: usize,
}

impl Model for Label {
    ghost use Rattle.std.specs.Prelude.{ℕ, List, length, take};
    ghost use Rattle.std.proofs.Common.{sym, arith, length-take-le};
    ghost use Rattle.zn_model.specs.SuperBlock.{padded};
    ghost use Rattle.zn_super.specs.Labels.{IsKept};

    ghost Value = { List ℕ };

    ghost view = { λ l. take l.len l.bytes };

    ghost invariant = { λ l. IsKept l.bytes l.len };

    ghost inverse = { λ text. record { bytes = padded 64 text; len = length text } };

    ghost inverse_ok = { λ l h i. record {
      bytes = sym h.rest i;
      len = length-take-le l.len l.bytes (omega (arith, h.size, h.most)) i;
    } };
}

/// Whether a byte may be in a label.
fn is_label_byte(byte: u8) -> bool
    ensures { result ≡ is_label_byte byte }
{
    (0x21..=0x7E).contains(&byte)
}

/// How many bytes from the first on may be in a label.
#[tactic(auto, using(std::proofs::lemmas::List::Sums::prefix_len_is))]
pub(crate) fn label_len(bytes: &[u8]) -> usize
    ensures { result ≡ prefix_len is_label_byte bytes.now }
{
    for (i, byte) in bytes.iter().enumerate() {
        if !is_label_byte(*byte) {
            return i;
        }
    }
    bytes.len()
}

/// Whether a text may be a label.
#[tactic(auto, using(crate::proofs::Labels::all_by_count))]
fn is_label(text: &[u8]) -> bool
    ensures { result ≡ is_label text.now }
{
    text.len() <= LABEL_SIZE && label_len(text) == text.len()
}

impl Label {
    /// This text as a label, where it is one: at most 64 bytes from 0x21 to 0x7E.
    pub fn new(text: &[u8]) -> Option<Label>
        ensures { result ≡ (if is_label text.now then Some text.now else None) }
    {
        if is_label(text) {
            Some(Label::kept(text))
        } else {
            None
        }
    }

    /// The label without a byte.
    pub fn empty() -> Label
        ensures { result ≡ [] }
    {
        Label::kept(&[])
    }

    /// This text, which may be a label.
    fn kept(text: &[u8]) -> Label
        requires { IsTrue (is_label text.now) }
        ensures { result ≡ text.now }
    {
        let mut bytes = [0; LABEL_SIZE];
        bytes[..text.len()].copy_from_slice(text);
        Label {
            bytes,
            len: text.len(),
        }
    }

    /// The label that the front of its field in a block is.
    #[tactic(auto, using(crate::proofs::Labels::front_is_label))]
    pub(crate) fn in_field(field: &[u8]) -> Label
        requires { length field.now ≡ LABEL_SIZE }
        ensures { result ≡ take_while is_label_byte field.now }
    {
        Label::kept(&field[..label_len(field)])
    }

    /// The text.
    pub fn as_bytes(&self) -> &[u8]
        ensures bytes { result.now ≡ self.now }
        ensures label { IsTrue (is_label self.now) }
    {
        &self.bytes[..self.len]
    }

    /// Its field in a block: the text, and zeros behind it.
    pub(crate) fn as_field(&self) -> &[u8; LABEL_SIZE]
        ensures field { result.now ≡ padded LABEL_SIZE self.now }
        ensures label { IsTrue (is_label self.now) }
    {
        &self.bytes
    }
}
