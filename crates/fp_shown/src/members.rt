//! The members of a text in which nothing stands that needn't. What they spell is not read here.

ghost use Rattle.std.specs.Prelude.{◌≡◌, ◌≤◌, ◌<◌, ◌+◌, ◌^◌, ◌++◌, ◌∷◌, ℕ, List, true};
ghost use Rattle.std.specs.Prelude.{Some, IfSome, MatchOption, length};
ghost use Rattle.std.specs.Option.{option_copied};
ghost use Rattle.json.specs.Print.{quoted};
ghost use Rattle.serde_json.specs.Written.{comma_if};
ghost use Rattle.fp_definition.specs.Valid.{is_definition_text};
ghost use Rattle.fp_shown.specs.Reading.{IsMember};
ghost use Rattle.fp_shown.specs.Scan.{after, after_between, after_quoted, is_done};

use fp_definition::Definition;

/// A member: its name in quotes, its value, and what stands behind it.
#[derive(Drop, Clone, Copy)]
pub(crate) struct Member<'a> {
    pub(crate) name: &'a [u8],
    pub(crate) value: &'a [u8],
    pub(crate) rest: &'a [u8],
}

/// The member that a text begins with, behind a comma where it isn't the first. Its value is perhaps
/// like that definition's text.
pub(crate) fn member_in<'a>(
    text: &'a [u8],
    later: bool,
    like: Option<&Definition>,
) -> Option<Member<'a>>
    ensures { (key value rest : List ℕ) → is_definition_text value ≡ true
        → text.now ≡ comma_if later ++ (quoted key ++ 58 ∷ (value ++ rest))
        → MatchOption result ⊥ (IsMember (quoted key) value rest) }
{
    if later {
        return first_member(behind(b',', text)?, like);
    }
    first_member(text, like)
}

fn first_member<'a>(text: &'a [u8], like: Option<&Definition>) -> Option<Member<'a>>
    ensures { (key value rest : List ℕ) → is_definition_text value ≡ true
        → text.now ≡ quoted key ++ 58 ∷ (value ++ rest)
        → MatchOption result ⊥ (IsMember (quoted key) value rest) }
{
    let (name, text) = text.split_at(end_of_value(text)?);
    let text = behind(b':', text)?;
    let (value, rest) = text.split_at(end_of_definition(text, like)?);
    Some(Member { name, value, rest })
}

// How many bytes the definition has that a text begins with. The end is looked for where it isn't
// the one that it may be like.
fn end_of_definition(text: &[u8], like: Option<&Definition>) -> Option<usize>
    ensures within { IfSome result (λ end. end ≤ length text.now) }
    ensures value { (value rest : List ℕ) → is_definition_text value ≡ true
        → text.now ≡ value ++ rest → result ≡ Some (length value) }
{
    if let Some(like) = like
        && let Some(_rest) = text.strip_prefix(like.text())
    {
        return Some(like.text().len());
    }
    end_of_value(text)
}

// What stands behind this byte.
fn behind(byte: u8, text: &[u8]) -> Option<&[u8]>
    ensures { (rest : List ℕ) → text.now ≡ byte ∷ rest → option_copied result ≡ Some rest }
{
    match text {
        [first, rest @ ..] if *first == byte => Some(rest),
        _ => None,
    }
}

// What a scan of a value stands in.
#[derive(Drop, Clone, Copy, PartialEq, Eq)]
enum Place {
    Between,
    Quoted,
    Escaped,
}

// Where a scan of a value stands: in so many objects and lists, and in a text or not.
#[derive(Drop, Clone, Copy)]
struct Scan {
    depth: usize,
    place: Place,
}

// How many bytes the text in quotes or the object has that a text begins with.
fn end_of_value(text: &[u8]) -> Option<usize>
    ensures within { IfSome result (λ end. end ≤ length text.now) }
    ensures name { (key rest : List ℕ) → text.now ≡ quoted key ++ rest
        → result ≡ Some (length (quoted key)) }
    ensures value { (value rest : List ℕ) → is_definition_text value ≡ true
        → text.now ≡ value ++ rest → result ≡ Some (length value) }
{
    let mut scan = Scan {
        depth: 0,
        place: Place::Between,
    };
    for at in 0..text.len() {
        scan = next(scan, text[at]);
        if is_end(scan) {
            return Some(at + 1);
        }
    }
    None
}

fn is_end(scan: Scan) -> bool
    ensures { result ≡ is_done scan }
{
    scan.place == Place::Between && scan.depth == 0
}

fn next(scan: Scan, byte: u8) -> Scan
    requires { scan.depth + 1 < 2 ^ 64 }
    ensures { result ≡ after scan.place scan.depth byte }
{
    match scan.place {
        Place::Between => between(scan.depth, byte),
        Place::Quoted => Scan {
            depth: scan.depth,
            place: in_quotes(byte),
        },
        Place::Escaped => Scan {
            depth: scan.depth,
            place: Place::Quoted,
        },
    }
}

fn between(depth: usize, byte: u8) -> Scan
    requires { depth + 1 < 2 ^ 64 }
    ensures { result ≡ after_between depth byte }
{
    let place = Place::Between;
    match byte {
        b'"' => Scan {
            depth,
            place: Place::Quoted,
        },
        b'{' | b'[' => Scan {
            depth: depth + 1,
            place,
        },
        b'}' | b']' => Scan {
            depth: depth.saturating_sub(1),
            place,
        },
        _ => Scan { depth, place },
    }
}

fn in_quotes(byte: u8) -> Place
    ensures { result ≡ after_quoted byte }
{
    match byte {
        b'"' => Place::Between,
        b'\\' => Place::Escaped,
        _ => Place::Quoted,
    }
}
