//! The order of trees by their texts.
ghost use Rattle.std.specs.Prelude.{◌≡◌, ◌≢◌, ◌≤◌, ℕ, List, length, IsTrue};
ghost use Rattle.std.specs.Fmt.{decimal};
ghost use Rattle.std.specs.Ordering.{nat_cmp};
ghost use Rattle.gft_tree.specs.Order as spec;
ghost use Rattle.gft_tree.specs.Order.{Orders};
ghost use Rattle.gft_tree.specs.Trees.{quoted};

use itoa::Buffer;
use std::cmp::Ordering;

/// What follows a part of a tree's text.
#[derive(Clone, Copy)]
pub enum After {
    End,
    Space,
    Close,
    Quote,
}

/// The first byte that is written for a byte: a quote and a backslash stand behind a backslash.
fn lead_byte(byte: u8) -> u8
    ensures { result ≡ spec.lead_byte byte }
{
    if byte == b'"' || byte == b'\\' {
        b'\\'
    } else {
        byte
    }
}

fn byte_cmp(one: u8, other: u8) -> Ordering
    ensures { result ≡ spec.byte_cmp one other }
{
    lead_byte(one).cmp(&lead_byte(other)).then(one.cmp(&other))
}

/// What follows against a byte that goes on.
fn after_cmp(after: After, byte: u8) -> Ordering
    ensures { result ≡ spec.after_cmp after byte }
{
    match after {
        After::End => Ordering::Less,
        After::Space => b' '.cmp(&lead_byte(byte)),
        After::Close => b')'.cmp(&lead_byte(byte)),
        After::Quote => b'"'.cmp(&lead_byte(byte)),
    }
}

/// Bytes as they are written, each before what follows it.
pub fn bytes_cmp(one: &[u8], other: &[u8], after_one: After, after_other: After) -> Ordering
    ensures { result ≡ spec.bytes_cmp after_one after_other one.now other.now }
{
    let mut at = 0;
    'bytes: while at < one.len() && at < other.len() {
        let order = byte_cmp(one[at], other[at]);
        if order.is_ne() {
            return order;
        }
        at += 1;
    }
    if at < other.len() {
        return after_cmp(after_one, other[at]);
    }
    if at < one.len() {
        return after_cmp(after_other, one[at]).reverse();
    }
    Ordering::Equal
}
