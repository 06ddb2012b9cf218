//! What the commands of a file share, and the commands by their words.

ghost use Rattle.fp_base.specs.Ordered.{IsOrdered};
ghost use Rattle.fp_base.specs.TreeView.{tree_view};

use crate::data::{datum_of, put_datum};
use crate::requests::Asking;
use crate::shapes::{Shapes, add_shape};
use crate::shown::shown_set;
use crate::streams::Subscriber;
use crate::{definitions, edits, imports, operators, records, rules, seeded, values};
use bumpalo::Bump;
use fp_base::{Tree, read_tree};
use fp_definition::{DefFault, Definition, FlagKey, KeyFault};
use fp_edit::FlagSet;
use fp_imports::{expand_document, expand_tree};
use fp_ofrep::Body;
use fp_operators::Datum;
use fp_targeting::{Rule, RuleFault};
use fp_transcript::{Answers, Text, Texts, expanded};
use json::Scratch;
use serde_json::Value;
use std::alloc::{AllocError, Global};
use std::collections::BTreeMap;
use std::mem;

// The words that a name or a number stands behind.
const HAVE_FIRST: [&str; 17] = [
    "let",
    "fits",
    "nests",
    "budget",
    "member",
    "op",
    "versions",
    "spell",
    "restore",
    "set",
    "now",
    "ask",
    "ask-too-long",
    "frame",
    "pieces",
    "waiting",
    "shown",
];

// The words of `run_tree`, whose operand is JSON.
const OF_TREES: [&str; 10] = [
    "json", "fits", "nests", "budget", "member", "op", "versions", "flag", "resolve", "import",
];

// The words of `run_value`, whose operand is JSON.
const OF_VALUES: [&str; 7] = [
    "json", "flag", "resolve", "import", "compile", "rule", "data",
];

// The words of `tell_bytes`.
const OF_BYTES: [&str; 7] = [
    "text",
    "line",
    "batch",
    "image",
    "beginnings",
    "changed",
    "spell",
];

// The words of `run_on_set`.
const ON_SET: [&str; 6] = ["edit", "judge", "restore", "key", "set", "shown"];

// The words of `run_request`.
const ON_REQUESTS: [&str; 4] = ["method", "if-none-match", "ask", "ask-too-long"];

// The words of a subscriber.
const ON_SUBSCRIBER: [&str; 8] = [
    "hello",
    "subscriber",
    "frame",
    "feed",
    "pieces",
    "halves",
    "watch",
    "waiting",
];

/// What the commands of a file share.
#[derive(Drop)]
pub struct Session {
    /// The texts that are named, and the shapes that inputs are drawn from.
    texts: Texts,
    shapes: Shapes,
    /// What rules and operators read, and the key and the moment that rules are told.
    data: Value,
    key: FlagKey,
    now: u64,
    /// The set that edits change, and a copy of an earlier one.
    set: FlagSet,
    kept: FlagSet,
    /// What requests have in common.
    asking: Asking,
    /// Who reads frames.
    subscriber: Subscriber,
}

fn first_key(alloc: Global) -> Result<FlagKey, AllocError> {
    match FlagKey::new(alloc, "banner") {
        Ok(key) => Ok(key),
        Err(_) => Err(AllocError),
    }
}

impl Session {
    /// Nothing named, no data, no flags, the key `banner` and the moment 0.
    pub fn new(alloc: Global) -> Result<Session, AllocError> {
        let key = first_key(alloc)?;
        Ok(Session {
            texts: BTreeMap::new(alloc),
            shapes: BTreeMap::new(alloc),
            data: Value::Null,
            key,
            now: 0,
            set: FlagSet::new(alloc, 1 << 23),
            kept: FlagSet::new(alloc, 1 << 23),
            asking: Asking::new(alloc)?,
            subscriber: Subscriber::new(alloc),
        })
    }
}

impl Answers for Session {
    fn answer(&mut self, command: &str, out: &mut Text) {
        let (word, rest) = split(command);
        if word == "shape" {
            let added = add_shape(out.alloc, &mut self.shapes, rest);
            let _ = out.got(added);
        } else if word == "seeded" {
            seeded::tried(&self.shapes, rest, out);
        } else {
            self.command(command, out);
        }
    }
}

impl Session {
    /// Answers a command that isn't one of shapes. It is its word, for some words a name or a
    /// number, and the operand, which is all that is left of the line.
    pub fn command(&mut self, command: &str, out: &mut Text) {
        let (word, rest) = split(command);
        let (first, rest) = if HAVE_FIRST.contains(&word) {
            split(rest)
        } else {
            ("", rest)
        };
        if let Some(operand) = out.got(expanded(out.alloc, &self.texts, rest)) {
            self.run(word, first, operand, out);
        }
    }

    fn run(&mut self, word: &str, first: &str, operand: Vec<u8>, out: &mut Text) {
        if word == "let" {
            self.name_text(first, operand, out);
        } else if OF_TREES.contains(&word) || OF_VALUES.contains(&word) {
            self.run_json(word, first, &operand, out);
        } else if OF_BYTES.contains(&word) {
            tell_bytes(word, number_in(first), &operand, out);
        } else if ON_SET.contains(&word) {
            self.run_on_set(word, number_in(first), &operand, out);
        } else if ON_REQUESTS.contains(&word) {
            self.run_request(word, first, operand, out);
        } else if ON_SUBSCRIBER.contains(&word) {
            self.subscriber.run(word, number_in(first), &operand, out);
        } else {
            self.run_word(word, first, out);
        }
    }

    fn name_text(&mut self, name: &str, text: Vec<u8>, out: &mut Text) {
        if let Some(name) = out.got(String::from_str(out.alloc, name)) {
            let named = self.texts.insert(name, text);
            let _ = out.got(named);
        }
    }

    // Commands on JSON. What takes a value as well is answered by both of JSON's readers, of which one
    // makes a tree and one a value. Where these have different answers that of the value stands
    // behind the other.
    fn run_json(&mut self, word: &str, first: &str, operand: &[u8], out: &mut Text) {
        if OF_TREES.contains(&word) {
            self.run_read_tree(word, first, operand, out);
        }
        if OF_VALUES.contains(&word) {
            let mut of_value = out.another();
            self.run_read_value(word, operand, &mut of_value);
            put_beside(&of_value, out);
        }
    }

    fn run_read_tree(&self, word: &str, first: &str, operand: &[u8], out: &mut Text) {
        let mut scratch = Scratch::new(out.alloc);
        let arena = Bump::new(out.alloc);
        match read_tree(out.alloc, &arena, operand, &mut scratch) {
            Ok(Some(tree)) => self.run_tree(&arena, word, first, &tree, out),
            Ok(None) => out.push("no JSON"),
            Err(_) => out.is_short = true,
        }
    }

    fn run_tree<'a>(
        &self,
        arena: &'a Bump,
        word: &str,
        first: &str,
        tree: &Tree<'a>,
        out: &mut Text,
    )
        requires { IsOrdered (tree_view tree.now) }
    {
        let alloc = out.alloc;
        match word {
            "flag" => definitions::canonical(Definition::from_tree(alloc, tree), out),
            "resolve" => self.resolve(Definition::from_tree(alloc, tree), out),
            "import" => imports::imported(expand_tree(alloc, arena, tree), out),
            "op" => operators::applied(&self.data, first, Datum::from_tree(alloc, tree), out),
            "versions" => operators::compared(first, Datum::from_tree(alloc, tree), out),
            _ => values::looked_at(word, first, number_in(first), tree, out),
        }
    }

    fn resolve(&self, made: Result<Definition, DefFault>, out: &mut Text) {
        definitions::resolved(&self.data, &self.key, self.now, made, out);
    }

    fn run_read_value(&mut self, word: &str, operand: &[u8], out: &mut Text) {
        match Value::from_slice(out.alloc, operand) {
            Ok(value) => self.run_value(word, value, out),
            Err(fault) => {
                out.push("no JSON");
                out.is_short = fault.is_memory();
            }
        }
    }

    fn run_value(&mut self, word: &str, value: Value, out: &mut Text) {
        let alloc = out.alloc;
        match word {
            "flag" => definitions::canonical(Definition::from_value(alloc, value), out),
            "resolve" => self.resolve(Definition::from_value(alloc, value), out),
            "import" => imports::imported(expand_document(alloc, value), out),
            "compile" => rules::compiled(Rule::compile(alloc, &value), out),
            "rule" => self.evaluate(Rule::compile(alloc, &value), out),
            "json" => values::put_value(&value, out),
            _ => self.set_data(value, out),
        }
    }

    fn evaluate(&self, made: Result<Rule, RuleFault>, out: &mut Text) {
        rules::evaluated(&self.data, self.key.as_str(), self.now, made, out);
    }

    // Commands on the set, and on the key.
    fn run_on_set(&mut self, word: &str, number: u64, operand: &[u8], out: &mut Text) {
        match word {
            "edit" => edits::admitted(&mut self.set, operand, out),
            "judge" => edits::judged(&self.set, operand, out),
            "restore" => edits::restored(&mut self.set, number, operand, out),
            "key" => self.set_key(operand, out),
            "shown" => self.show_set(number, operand, out),
            _ => self.start_set(number, operand, out),
        }
    }

    fn run_request(&mut self, word: &str, target: &str, operand: Vec<u8>, out: &mut Text) {
        match word {
            "method" => self.asking.set_method(operand),
            "if-none-match" => self.asking.set_if_none_match(operand),
            "ask" => self.ask(target, Body::Whole(&operand), out),
            _ => self.ask(target, Body::TooLong, out),
        }
    }

    // Commands without an operand.
    fn run_word(&mut self, word: &str, first: &str, out: &mut Text) {
        match word {
            "now" => self.now = number_in(first),
            "get" => edits::put_flag(&self.set, &self.key, out),
            "document" => put_document(&self.set, out),
            "changes" => edits::put_changes(&self.set, out),
            "keep" => self.keep(out),
            "swap" => mem::swap(&mut self.set, &mut self.kept),
            "image-of-set" => records::image_of(&self.set, out),
            _ => out.push("no such command"),
        }
    }

    fn ask(&self, target: &str, body: Body<'_>, out: &mut Text) {
        self.asking.ask(&self.set, target, body, self.now, out);
    }

    fn keep(&mut self, out: &mut Text) {
        if let Some(copy) = out.got(self.set.try_copy()) {
            self.kept = copy;
        }
    }

    // An empty set under a limit, at a revision.
    fn start_set(&mut self, limit: u64, operand: &[u8], out: &mut Text) {
        let revision = match std::str::from_utf8(operand) {
            Ok(text) => number_in(text),
            Err(_) => 0,
        };
        if revision >= 1 << 63 {
            return out.push("no revision");
        }
        self.set = FlagSet::at_revision(out.alloc, revision, limit);
        edits::put_size(&self.set, out);
    }

    // The set that is shown of a frame.
    fn show_set(&mut self, revision: u64, document: &[u8], out: &mut Text) {
        if let Some(set) = shown_set(revision, document, out) {
            self.set = set;
        }
    }

    // The data of operators and rules, shown as they are copied.
    fn set_data(&mut self, value: Value, out: &mut Text) {
        put_copy(datum_of(out.alloc, &value), out);
        self.data = value;
    }

    fn set_key(&mut self, operand: &[u8], out: &mut Text) {
        let Ok(text) = std::str::from_utf8(operand) else {
            return out.push("no text");
        };
        match FlagKey::new(out.alloc, text) {
            Ok(key) => {
                out.push(key.as_str());
                self.key = key;
            }
            Err(KeyFault::BadKey) => out.push("bad key"),
            Err(KeyFault::Memory) => out.is_short = true,
        }
    }
}

// An answer beside another one, where it is different.
fn put_beside(answer: &Text, out: &mut Text) {
    if out.is_empty() {
        out.push(answer.as_str());
    } else if answer.text != out.text {
        out.push(" BUT ITS VALUE: ");
        out.push(answer.as_str());
    }
    out.is_short = out.is_short || answer.is_short;
}

// What bytes are: a definition, an edit line, a batch, an image.
fn tell_bytes(word: &str, number: u64, operand: &[u8], out: &mut Text) {
    match word {
        "text" => definitions::read_back(operand, out),
        "line" => edits::parsed(operand, out),
        "batch" => records::batch(operand, out),
        "image" => records::image(operand, out),
        "beginnings" => records::beginnings(operand, out),
        "changed" => records::changed(operand, out),
        _ => records::spelled(number, operand, out),
    }
}

fn put_document(set: &FlagSet, out: &mut Text) {
    if let Some(document) = out.got(set.document()) {
        out.utf8(&document);
    }
}

fn put_copy(made: Result<Datum, AllocError>, out: &mut Text) {
    if let Some(datum) = out.got(made) {
        if let Some(copy) = out.got(datum.try_copy(out.alloc)) {
            put_datum(&copy, out);
        }
    }
}

fn split(line: &str) -> (&str, &str) {
    line.split_once(' ').unwrap_or((line, ""))
}

fn number_in(text: &str) -> u64 {
    text.parse().unwrap_or(0)
}
