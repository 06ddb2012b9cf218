//! The pairs of `fractional`, as they are kept, and which name a key falls to.

ghost use Rattle.std.specs.Prelude.{◌≡◌, ◌++◌, true, Some, IfOk, option_map};
ghost use Rattle.std.specs.Prelude.{option_and_then, is_some};
ghost use Rattle.fp_operators.specs.View.{view};
ghost use Rattle.fp_machine.specs.Split.{text_in, total_after, total_of, share_at, chosen};
ghost use Rattle.fp_machine.specs.Split.{own_key, flag_key, targeting_key};
ghost use Rattle.fp_machine.specs.Table.{pairs_view};

use fp_operators::{Datum, place_below, step};
use std::alloc::{AllocError, Global};
use std::marker::Model;

/// A name and how much it weighs: one, where no weight is written.
#[derive(Drop)]
pub struct Share {
    pub name: Datum,
    pub weight: Option<u32>,
}

/// Pairs, with their total weight.
#[derive(Drop)]
struct Pairs {
    shares: Vec<Share>,
    total: u32,
}

/// The pairs of a `fractional`. They stand in a box, so that instructions are small.
#[derive(Drop)]
pub struct Table {
    pairs: Box<Pairs>,
}

impl Model for Table {
    ghost use Rattle.std.specs.Prelude.{◌≡◌, Some};
    ghost use Rattle.fp_machine.specs.Codes.{coded_rules};
    ghost use Rattle.fp_machine.specs.Rule.{Rules};
    ghost use Rattle.fp_machine.specs.Split.{total_of};
    ghost use Rattle.fp_machine.specs.Table.{pairs_view};

    ghost Value = { Rules };

    ghost coded = { coded_rules };

    ghost view = { λ t. pairs_view t.pairs.value.shares.items };

    ghost invariant = { λ t.
        total_of (pairs_view t.pairs.value.shares.items) ≡ Some t.pairs.value.total };
}

impl Table {
    /// The table of these shares, which weigh so much together.
    pub fn of(alloc: Global, shares: Vec<Share>, total: u32) -> Result<Table, AllocError>
        // That is their total weight, and within the limit.
        requires { total_of (pairs_view shares.items) ≡ Some total }
        // `Ok`: these pairs.
        ensures { IfOk result (λ t. t ≡ pairs_view shares.items) }
    {
        let pairs = Box::new(alloc, Pairs { shares, total })?;
        Ok(Table { pairs })
    }

    /// The name whose share the text falls to.
    pub fn chosen_by<'t>(&'t self, key: &Datum) -> Option<&'t Datum>
        // The name that the pairs give the key by their weights; none where it is no text.
        ensures { option_map (λ d. view d.now) result
            ≡ option_and_then (chosen self.now) (text_in (view key.now)) }
    {
        let Some(key) = text_in(key) else {
            return None;
        };
        self.chosen(key, "")
    }

    /// The same of the flag's key followed by the targeting key of the data.
    pub fn chosen_by_own_key<'t>(&'t self, root: &Datum) -> Option<&'t Datum>
        // The name that they give that key; none where the data lack either one as a text.
        ensures { option_map (λ d. view d.now) result
            ≡ option_and_then (chosen self.now) (own_key (view root.now)) }
    {
        let Some(flag_key) = flag_key(root) else {
            return None;
        };
        let Some(targeting_key) = targeting_key(root) else {
            return None;
        };
        self.chosen(flag_key, targeting_key)
    }

    // The name whose share a key of two parts falls to.
    fn chosen<'t>(&'t self, front: &str, back: &str) -> Option<&'t Datum>
        ensures { option_map (λ d. view d.now) result
            ≡ chosen self.now (front.now ++ back.now) }
    {
        let pairs = &self.pairs;
        share_at(
            pairs.shares.as_slice(),
            place_below(pairs.total, front, back),
        )
    }
}

// The first name whose weight, with those before it, is above the place.
fn share_at(shares: &[Share], place: u32) -> Option<&Datum>
    requires { is_some (total_after 0 (pairs_view shares.now)) ≡ true }
    ensures { option_map (λ d. view d.now) result ≡ share_at place 0 (pairs_view shares.now) }
{
    let mut sum = 0;
    for share in shares {
        let weight = share.weight.unwrap_or(1);
        if place - sum < weight {
            return Some(&share.name);
        }
        sum += weight;
    }
    None
}

fn flag_key(root: &Datum) -> Option<&str>
    ensures { option_map (λ s. s.now) result ≡ flag_key (view root.now) }
{
    let Some(flag) = step(root, "$flagd") else {
        return None;
    };
    let Some(key) = step(flag, "flagKey") else {
        return None;
    };
    text_in(key)
}

fn targeting_key(root: &Datum) -> Option<&str>
    ensures { option_map (λ s. s.now) result ≡ targeting_key (view root.now) }
{
    let Some(key) = step(root, "targetingKey") else {
        return None;
    };
    text_in(key)
}

fn text_in(datum: &Datum) -> Option<&str>
    ensures { option_map (λ s. s.now) result ≡ text_in (view datum.now) }
{
    match datum {
        Datum::Text(s) => Some(s.as_str()),
        _ => None,
    }
}
