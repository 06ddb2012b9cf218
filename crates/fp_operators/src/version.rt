//! Versions by Semantic Versioning.

ghost use Rattle.std.specs.Prelude.{◌≡◌, IfOk, option_map, string_bytes};
ghost use Rattle.std.specs.Char.{is_ascii_digit};
ghost use Rattle.std.specs.List.{list_all};
ghost use Rattle.semver.specs.Identifiers.{parts_of};
ghost use Rattle.fp_operators.specs.View.{view};
ghost use Rattle.fp_operators.specs.Numeral.{is_numeral};
ghost use Rattle.fp_operators.specs.Version.{without_v as without_v_of, filling as filling_of};
ghost use Rattle.fp_operators.specs.Version.{with_zero_groups, version_of, holds as holds_of};
ghost use Rattle.fp_operators.specs.Version.{comparison, text_comparison};

use crate::datum::Datum;
use semver::Version;
use std::alloc::{AllocError, Global};
use std::cmp::Ordering;

/// `sem_ver`: how the operator, the second argument, compares two versions. What is no version, or
/// no operator, gives false.
pub fn sem_ver(
    alloc: Global,
    first: &Datum,
    operator: &Datum,
    second: &Datum,
) -> Result<bool, AllocError>
    ensures { IfOk result
        (λ r. r ≡ comparison (view first.now) (view operator.now) (view second.now)) }
{
    match (first, operator, second) {
        (Datum::Text(a), Datum::Text(op), Datum::Text(b)) => {
            compare_texts(alloc, a.as_str(), op.as_str(), b.as_str())
        }
        _ => Ok(false),
    }
}

fn compare_texts(
    alloc: Global,
    first: &str,
    operator: &str,
    second: &str,
) -> Result<bool, AllocError>
    ensures { IfOk result
        (λ r. r ≡ text_comparison (version_of first.now) operator.now (version_of second.now)) }
{
    let a = version(alloc, first)?;
    let b = version(alloc, second)?;
    match (&a, &b) {
        (Some(x), Some(y)) => Ok(holds(operator, x, y)),
        _ => Ok(false),
    }
}

fn holds(operator: &str, a: &Version, b: &Version) -> bool
    ensures { result ≡ holds_of operator.now (parts_of a.now) (parts_of b.now) }
{
    let order = a.cmp_precedence(b);
    match operator {
        "=" => order == Ordering::Equal,
        "!=" => order != Ordering::Equal,
        "<" => order == Ordering::Less,
        "<=" => order != Ordering::Greater,
        ">" => order == Ordering::Greater,
        ">=" => order != Ordering::Less,
        "~" => a.major == b.major && a.minor == b.minor,
        "^" => a.major == b.major,
        _ => false,
    }
}

/// The version that a text writes, if it is one.
fn version(alloc: Global, text: &str) -> Result<Option<Version>, AllocError>
    ensures { IfOk result (λ o. option_map parts_of o ≡ version_of text.now) }
{
    let full = complete(alloc, text)?;
    match Version::parse(alloc, full.as_str()) {
        Ok(v) => Ok(Some(v)),
        Err(e) => {
            if e == semver::Error::from(AllocError) {
                Err(AllocError)
            } else {
                Ok(None)
            }
        }
    }
}

fn complete(alloc: Global, text: &str) -> Result<String, AllocError>
    ensures { IfOk result (λ s. string_bytes s ≡ with_zero_groups (without_v_of text.now)) }
{
    let rest = without_v(text);
    let mut full = String::from_str(alloc, rest)?;
    full.push_str(filling(rest))?;
    Ok(full)
}

fn without_v(text: &str) -> &str
    ensures { result.now ≡ without_v_of text.now }
{
    match text.strip_prefix('v') {
        Some(rest) => rest,
        None => text,
    }
}

/// What fills one or two groups of digits up to three.
fn filling(text: &str) -> &'static str
    ensures { result.now ≡ filling_of text.now }
{
    if is_group(text) {
        return ".0.0";
    }
    match text.split_once('.') {
        Some((major, minor)) => {
            if is_group(major) && is_group(minor) {
                ".0"
            } else {
                ""
            }
        }
        None => "",
    }
}

#[tactic(auto, using(crate::proofs::Numerals::all_digits_tested))]
fn is_group(text: &str) -> bool
    ensures { result ≡ is_numeral text.now }
{
    all_digits(text.as_bytes()) && !text.is_empty()
}

fn all_digits(bytes: &[u8]) -> bool
    ensures { result ≡ list_all is_ascii_digit bytes.now }
{
    bytes.iter().all(|byte| byte.is_ascii_digit())
}
