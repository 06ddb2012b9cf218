//! Operators: their names, and how many arguments they take.

ghost use Rattle.std.specs.Prelude.{◌≡◌};
ghost use Rattle.fp_machine.specs.Operators.{comparison_of, operator_of, takes as takes_of};

/// What an object of one member asks for.
#[derive(Clone, Copy, Drop)]
pub enum Operator {
    If,
    And,
    Or,
    Var,
    Cat,
    SemVer,
    Fractional,
    Unary(UnaryOperator),
    Binary(BinaryOperator),
    Chain(ChainOperator),
}

/// An operator of one argument.
#[derive(Clone, Copy, Drop)]
pub enum UnaryOperator {
    Not,
    Truth,
}

/// An operator of two arguments.
#[derive(Clone, Copy, Drop)]
pub enum BinaryOperator {
    StrictlyEqual,
    StrictlyUnequal,
    LooselyEqual,
    LooselyUnequal,
    Greater,
    GreaterOrEqual,
    In,
    Remainder,
    StartsWith,
    EndsWith,
}

/// A comparison of two arguments, or of each two neighbours among three.
#[derive(Clone, Copy, Drop)]
pub enum ChainOperator {
    Less,
    LessOrEqual,
}

impl Operator {
    /// The operator of that name.
    pub fn named(name: &str) -> Option<Operator>
        // The one that the definition has under this name, or none.
        ensures { result ≡ operator_of name.now }
    {
        match name {
            "var" => Some(Operator::Var),
            "if" => Some(Operator::If),
            "and" => Some(Operator::And),
            "or" => Some(Operator::Or),
            "!" => Some(Operator::Unary(UnaryOperator::Not)),
            "!!" => Some(Operator::Unary(UnaryOperator::Truth)),
            "in" => Some(Operator::Binary(BinaryOperator::In)),
            "cat" => Some(Operator::Cat),
            "%" => Some(Operator::Binary(BinaryOperator::Remainder)),
            "starts_with" => Some(Operator::Binary(BinaryOperator::StartsWith)),
            "ends_with" => Some(Operator::Binary(BinaryOperator::EndsWith)),
            "sem_ver" => Some(Operator::SemVer),
            "fractional" => Some(Operator::Fractional),
            _ => comparison_named(name),
        }
    }

    /// Whether the operator takes so many arguments.
    pub fn takes(self, count: usize) -> bool
        // As its line of the definition says.
        ensures { result ≡ takes_of self count }
    {
        match self {
            Operator::If | Operator::Cat => true,
            Operator::And | Operator::Or | Operator::Fractional => count >= 1,
            Operator::Var => count <= 2,
            Operator::SemVer => count == 3,
            Operator::Unary(_) => count == 1,
            Operator::Binary(_) => count == 2,
            Operator::Chain(_) => count == 2 || count == 3,
        }
    }
}

// The comparison of that name.
fn comparison_named(name: &str) -> Option<Operator>
    ensures { result ≡ comparison_of name.now }
{
    match name {
        "===" => Some(Operator::Binary(BinaryOperator::StrictlyEqual)),
        "!==" => Some(Operator::Binary(BinaryOperator::StrictlyUnequal)),
        "==" => Some(Operator::Binary(BinaryOperator::LooselyEqual)),
        "!=" => Some(Operator::Binary(BinaryOperator::LooselyUnequal)),
        "<" => Some(Operator::Chain(ChainOperator::Less)),
        "<=" => Some(Operator::Chain(ChainOperator::LessOrEqual)),
        ">" => Some(Operator::Binary(BinaryOperator::Greater)),
        ">=" => Some(Operator::Binary(BinaryOperator::GreaterOrEqual)),
        _ => None,
    }
}
