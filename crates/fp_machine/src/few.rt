//! What an operator of one to three arguments gives for their results.

ghost use Rattle.std.specs.Prelude.{◌≡◌, ◌∷◌, [], ◌&&◌, true, IfOk, OnErr};
ghost use Rattle.fp_operators.specs.View.{view};
ghost use Rattle.fp_machine.specs.Frugal.{is_sem_ver};
ghost use Rattle.fp_machine.specs.Machine.{few};
ghost use Rattle.fp_machine.specs.Operators.{ascending, binary};

use crate::operator::{BinaryOperator, ChainOperator, Operator, UnaryOperator};
use fp_operators::{
    Datum, between_exclusive, between_inclusive, ends_with, greater, greater_or_equal, is_falsy,
    is_in, is_truthy, less, less_or_equal, loosely_equal, loosely_unequal, remainder, sem_ver,
    starts_with, strictly_equal, strictly_unequal,
};
use std::alloc::{AllocError, Global};

pub fn of_one(operator: Operator, only: &Datum) -> Datum
    ensures { view result ≡ few operator (view only.now ∷ []) }
{
    match operator {
        Operator::Unary(UnaryOperator::Not) => Datum::Bool(is_falsy(only)),
        Operator::Unary(UnaryOperator::Truth) => Datum::Bool(is_truthy(only)),
        _ => Datum::Null,
    }
}

pub fn of_two(operator: Operator, first: &Datum, second: &Datum) -> Datum
    ensures { view result ≡ few operator (view first.now ∷ view second.now ∷ []) }
{
    match operator {
        Operator::Binary(binary) => of_binary(binary, first, second),
        Operator::Chain(chain) => Datum::Bool(is_ascending(chain, first, second)),
        _ => Datum::Null,
    }
}

pub fn of_three(
    alloc: Global,
    operator: Operator,
    first: &Datum,
    second: &Datum,
    third: &Datum,
) -> Result<Datum, AllocError>
    ensures gives { IfOk result (λ x.
        view x ≡ few operator (view first.now ∷ view second.now ∷ view third.now ∷ [])) }
    ensures memory { OnErr result (is_sem_ver operator ≡ true) }
{
    match operator {
        Operator::SemVer => Ok(Datum::Bool(sem_ver(alloc, first, second, third)?)),
        Operator::Chain(chain) => Ok(Datum::Bool(are_ascending(chain, first, second, third))),
        _ => Ok(Datum::Null),
    }
}

fn is_ascending(operator: ChainOperator, first: &Datum, second: &Datum) -> bool
    ensures { result ≡ ascending operator (view first.now) (view second.now) }
{
    match operator {
        ChainOperator::Less => less(first, second),
        ChainOperator::LessOrEqual => less_or_equal(first, second),
    }
}

fn are_ascending(operator: ChainOperator, low: &Datum, middle: &Datum, high: &Datum) -> bool
    ensures { let m = view middle.now in
        result ≡ (ascending operator (view low.now) m && ascending operator m (view high.now)) }
{
    match operator {
        ChainOperator::Less => between_exclusive(low, middle, high),
        ChainOperator::LessOrEqual => between_inclusive(low, middle, high),
    }
}

fn of_binary(operator: BinaryOperator, first: &Datum, second: &Datum) -> Datum
    ensures { view result ≡ binary operator (view first.now) (view second.now) }
{
    match operator {
        BinaryOperator::StrictlyEqual => Datum::Bool(strictly_equal(first, second)),
        BinaryOperator::StrictlyUnequal => Datum::Bool(strictly_unequal(first, second)),
        BinaryOperator::LooselyEqual => Datum::Bool(loosely_equal(first, second)),
        BinaryOperator::LooselyUnequal => Datum::Bool(loosely_unequal(first, second)),
        BinaryOperator::Greater => Datum::Bool(greater(first, second)),
        BinaryOperator::GreaterOrEqual => Datum::Bool(greater_or_equal(first, second)),
        BinaryOperator::In => Datum::Bool(is_in(first, second)),
        BinaryOperator::Remainder => remainder(first, second),
        BinaryOperator::StartsWith => Datum::Bool(starts_with(first, second)),
        BinaryOperator::EndsWith => Datum::Bool(ends_with(first, second)),
    }
}
