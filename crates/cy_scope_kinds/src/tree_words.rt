//! The words of an expression's tree: those of one tree are the same, and those of two trees differ.

ghost use Rattle.std.specs.Prelude.{◌≡◌, map, IfOk, OnOk};
ghost use Rattle.cy_trees.specs.TreeModels.{expression_of, expressions_from, links_from, link_of, arms_from, arm_of};
ghost use Rattle.cy_scope_kinds.specs.internal.ExpressionTrees.{otherwise_of};
ghost use Rattle.cy_scope_kinds.specs.internal.TreeWords as spec;

use cy_trees::{Arm, BinaryOperator, Comparator, Expr, Link, UnaryOperator};
use cy_values::Text;
use std::alloc::{AllocError, Global};

/// Adds one word.
#[tactic(auto, unfolding(crate::specs::internal::TreeWords::with_word))]
fn add_word(words: &mut Vec<u64>, word: u64) -> Result<(), AllocError>
    ensures { OnOk result (words.new.items ≡ spec.with_word words.old.items word) }
{
    words.push(word)?;
    Ok(())
}

/// Adds the bytes of a text, each as one more than it is, and 0 after the last.
fn add_text(words: &mut Vec<u64>, text: &str) -> Result<(), AllocError>
    ensures { OnOk result (words.new.items ≡ spec.with_text words.old.items text.now) }
{
    for byte in text.as_bytes() {
        add_word(words, u64::from(*byte) + 1)?;
    }
    add_word(words, 0)
}

/// Adds names, each after a 1, and 0 after the last.
fn add_names(words: &mut Vec<u64>, names: &[Text]) -> Result<(), AllocError>
    ensures { OnOk result (words.new.items ≡ spec.with_names words.old.items names.now) }
{
    for name in names {
        add_word(words, 1)?;
        add_text(words, name.as_str())?;
    }
    add_word(words, 0)
}

fn unary_word(operator: UnaryOperator) -> u64
    ensures { result ≡ spec.unary_word operator }
{
    match operator {
        UnaryOperator::Not => 0,
        UnaryOperator::Plus => 1,
        UnaryOperator::Minus => 2,
        UnaryOperator::IsNull => 3,
        UnaryOperator::IsNotNull => 4,
    }
}

fn binary_word(operator: BinaryOperator) -> u64
    ensures { result ≡ spec.binary_word operator }
{
    match operator {
        BinaryOperator::Or => 0,
        BinaryOperator::Xor => 1,
        BinaryOperator::And => 2,
        BinaryOperator::In => 3,
        BinaryOperator::Contains => 4,
        BinaryOperator::StartsWith => 5,
        BinaryOperator::EndsWith => 6,
        BinaryOperator::Add => 7,
        BinaryOperator::Subtract => 8,
        BinaryOperator::Multiply => 9,
        BinaryOperator::Divide => 10,
        BinaryOperator::Remainder => 11,
    }
}

fn comparator_word(comparator: Comparator) -> u64
    ensures { result ≡ spec.comparator_word comparator }
{
    match comparator {
        Comparator::Equal => 0,
        Comparator::NotEqual => 1,
        Comparator::Less => 2,
        Comparator::LessOrEqual => 3,
        Comparator::Greater => 4,
        Comparator::GreaterOrEqual => 5,
    }
}

/// The word of an expression's form.
fn form_word(expression: &Expr) -> u64
    ensures { result ≡ spec.form_word (expression_of expression.now) }
{
    match expression {
        Expr::Null => 0,
        Expr::Boolean(_) => 1,
        Expr::Integer(_) => 2,
        Expr::Text(_) => 3,
        Expr::Variable(_) => 4,
        Expr::Property(_, _) => 5,
        Expr::HasLabels(_, _) => 6,
        Expr::Unary(_, _) => 7,
        Expr::Binary(_, _, _) => 8,
        Expr::Comparison(_, _) => 9,
        Expr::List(_) => 10,
        Expr::Case(_, _) => 11,
        Expr::Call(_, _, _) => 12,
        Expr::CallStar(_) => 13,
    }
}

fn add_integer(words: &mut Vec<u64>, integer: i64) -> Result<(), AllocError>
    ensures { OnOk result (words.new.items ≡ spec.with_integer words.old.items integer) }
{
    add_flag(words, integer < 0)?;
    add_word(words, integer.unsigned_abs())
}

fn add_flag(words: &mut Vec<u64>, flag: bool) -> Result<(), AllocError>
    ensures { OnOk result (words.new.items ≡ spec.with_flag words.old.items flag) }
{
    add_word(words, if flag { 1 } else { 0 })
}

/// Adds the trees of elements, each after a 1, and 0 after the last; so of links and of arms.
#[cycle(adding)]
fn add_elements(words: &mut Vec<u64>, elements: &[Expr]) -> Result<(), AllocError>
    ensures { OnOk result (words.new.items ≡ spec.with_elements words.old.items (expressions_from (map expression_of elements.now))) }
{
    for element in elements {
        add_word(words, 1)?;
        add_tree(words, element)?;
    }
    add_word(words, 0)
}

#[cycle(adding)]
fn add_call(
    words: &mut Vec<u64>,
    name: &Text,
    distinct: bool,
    arguments: &[Expr],
) -> Result<(), AllocError>
    ensures { OnOk result (words.new.items ≡ spec.with_elements (spec.with_flag (spec.with_text words.old.items name.now) distinct) (expressions_from (map expression_of arguments.now))) }
{
    add_text(words, name.as_str())?;
    add_flag(words, distinct)?;
    add_elements(words, arguments)
}

#[cycle(adding)]
fn add_links(words: &mut Vec<u64>, links: &[Link]) -> Result<(), AllocError>
    ensures { OnOk result (words.new.items ≡ spec.with_links words.old.items (links_from (map link_of links.now))) }
{
    for link in links {
        add_word(words, 1)?;
        add_word(words, comparator_word(link.comparator))?;
        add_tree(words, &link.operand)?;
    }
    add_word(words, 0)
}

#[cycle(adding)]
fn add_arms(words: &mut Vec<u64>, arms: &[Arm]) -> Result<(), AllocError>
    ensures { OnOk result (words.new.items ≡ spec.with_arms words.old.items (arms_from (map arm_of arms.now))) }
{
    for arm in arms {
        add_word(words, 1)?;
        add_tree(words, &arm.condition)?;
        add_tree(words, &arm.outcome)?;
    }
    add_word(words, 0)
}

#[cycle(adding)]
fn add_otherwise(words: &mut Vec<u64>, otherwise: &Option<Box<Expr>>) -> Result<(), AllocError>
    ensures { OnOk result (words.new.items ≡ spec.with_otherwise words.old.items (otherwise_of otherwise.now)) }
{
    match otherwise {
        Some(otherwise) => {
            add_word(words, 1)?;
            add_tree(words, otherwise)
        }
        None => add_word(words, 0),
    }
}

/// Adds the words of a tree; the columns of variables don't count.
#[cycle(adding)]
fn add_tree(words: &mut Vec<u64>, expression: &Expr) -> Result<(), AllocError>
    ensures { OnOk result (words.new.items ≡ spec.with_tree words.old.items (expression_of expression.now)) }
{
    add_word(words, form_word(expression))?;
    match expression {
        Expr::Null => Ok(()),
        Expr::Boolean(truth) => add_flag(words, *truth),
        Expr::Integer(integer) => add_integer(words, *integer),
        Expr::Text(text) => add_text(words, text.as_str()),
        Expr::Variable(variable) => add_text(words, variable.name.as_str()),
        Expr::Property(owner, key) => {
            add_tree(words, owner)?;
            add_text(words, key.as_str())
        }
        Expr::HasLabels(owner, labels) => {
            add_tree(words, owner)?;
            add_names(words, labels)
        }
        Expr::Unary(operator, operand) => {
            add_word(words, unary_word(*operator))?;
            add_tree(words, operand)
        }
        Expr::Binary(operator, left, right) => {
            add_word(words, binary_word(*operator))?;
            add_tree(words, left)?;
            add_tree(words, right)
        }
        Expr::Comparison(first, links) => {
            add_tree(words, first)?;
            add_links(words, links)
        }
        Expr::List(elements) => add_elements(words, elements),
        Expr::Case(arms, otherwise) => {
            add_arms(words, arms)?;
            add_otherwise(words, otherwise)
        }
        Expr::Call(name, distinct, arguments) => add_call(words, name, *distinct, arguments),
        Expr::CallStar(name) => add_text(words, name.as_str()),
    }
}

/// The words of an expression's tree.
pub fn words_of(alloc: Global, expression: &Expr) -> Result<Vec<u64>, AllocError>
    ensures { IfOk result (λ words. words.items ≡ spec.words_of (expression_of expression.now)) }
{
    let mut words = Vec::new(alloc);
    add_tree(&mut words, expression)?;
    Ok(words)
}
