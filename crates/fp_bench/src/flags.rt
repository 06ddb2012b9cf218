//! Flags: their definitions and rules.

use crate::random::Random;
use crate::text::Text;

/// What rules flags have.
#[derive(Clone, Copy)]
pub enum Rules {
    /// No flag has one.
    None,
    /// Two flags of three have a short one.
    Usual,
    /// Three flags of four have one, and of these one of four lists 20 to 300 tenants.
    Long,
}

impl Rules {
    // How many conditions a rule has, and how many tenants a list in it.
    fn chosen(self, random: &mut Random) -> (u64, u64) {
        match self {
            Rules::None => (0, 0),
            Rules::Usual => (random.below(3), random.from(3, 6)),
            Rules::Long if random.below(4) == 0 => (random.below(4), random.from(20, 281)),
            Rules::Long => (random.below(4), random.from(3, 12)),
        }
    }
}

const CONDITIONS: [&[u8]; 6] = [
    br#"{"or":[{"ends_with":[{"var":"email"},"@%p.example.com"]},{"in":["beta",{"var":"roles"}]}]}"#,
    br#"{"sem_ver":[{"var":"app.version"},">=","1.%n.0"]}"#,
    br#"{"and":[{">=":[{"var":"orders"},%n]},{"==":[{"var":"country"},"%c"]}]}"#,
    br#"{"in":[{"cat":[{"var":"plan"}," in ",{"var":"address.city"}]},["%p in %y","%p in %y","%p in %y"]]}"#,
    br#"{"in":[{"var":"tenant"},[%T]]}"#,
    br#"{"in":[{"var":"tenant"},[%T]]}"#,
];

const NAMES: [[&[u8]; 2]; 4] = [
    [b"off", b"on"],
    [b"control", b"treatment"],
    [b"few", b"many"],
    [b"large", b"small"],
];

const VARIANTS: [&[u8]; 4] = [
    br#""variants":{"off":false,"on":true}"#,
    br#""variants":{"control":"%w","treatment":"%w"}"#,
    br#""variants":{"few":%N,"many":%N}"#,
    br#""variants":{"large":{"columns":%n,"sections":["%o","%o","%o"],"title":"%w"},"small":{"columns":%n,"sections":["%o"],"title":"%w"}}"#,
];

const METADATA: &[u8] = br#""metadata":{"description":"%w","owner":"team-%o","ticket":1%u}"#;

/// A reference to an evaluator.
pub const REFERENCE: &[u8] = br#"{"$ref":"evaluator-%d"}"#;

/// How many evaluators a document has.
pub const EVALUATORS: u64 = 12;

/// A condition of a rule.
pub fn condition(text: &mut Text) {
    let condition = text.random.pick(&CONDITIONS);
    text.say(condition);
}

// The variants in turn, each behind a condition, and the first one behind all.
fn rule(text: &mut Text, conditions: u64) {
    if conditions == 0 {
        return;
    }
    text.say(br#","targeting":{"if":["#);
    for n in 0..conditions {
        condition(text);
        text.say(if n % 2 == 0 {
            br#","%2","#
        } else {
            br#","%1","#
        });
    }
    text.say(br#""%1"]}"#);
}

/// A definition, in the order of canonical JSON or in that of a person.
pub fn definition(text: &mut Text, rules: Rules) {
    let (conditions, tenants) = rules.chosen(&mut text.random);
    let kind = (text.random.below(6) % 4) as usize;
    text.tenants = tenants;
    text.names = NAMES[kind];
    if text.is_canonical() || text.random.below(2) == 0 {
        text.say(br#"{"defaultVariant":"%1","#);
        text.say(METADATA);
        text.say(br#","state":"ENABLED""#);
        rule(text, conditions);
        text.say(b",");
        text.say(VARIANTS[kind]);
    } else {
        text.say(br#"{"state":"ENABLED","#);
        text.say(VARIANTS[kind]);
        text.say(br#","defaultVariant":"%1""#);
        rule(text, conditions);
        text.say(b",");
        text.say(METADATA);
    }
    text.say(b"}");
}

/// A definition whose rule refers to an evaluator.
pub fn referring(text: &mut Text) {
    text.number = text.random.below(EVALUATORS);
    text.tenants = 4;
    text.say(br#"{"state":"ENABLED","variants":{"on":true,"off":false},"defaultVariant":"off","#);
    text.say(METADATA);
    text.say(br#","targeting":{"if":["#);
    text.say(REFERENCE);
    text.say(br#","on","#);
    condition(text);
    text.say(br#","on","off"]}}"#);
}
