//! What typed rules ask.

ghost use Rattle.std.specs.Prelude.{◌≡◌, ◌++◌, IfOk, OnOk, map};
ghost use Rattle.isle_check_matchings.specs.RuleAsks.{conditions_asks, matched, needed, rule_asks};
ghost use Rattle.isle_check_matchings.specs.Values.{value};
ghost use Rattle.isle_check_matchings.specs.Views.{asks_of, terms_of};
ghost use Rattle.isle_check_places.specs.Views.{places_of};
ghost use Rattle.isle_check_rules.specs.Views.{typed_condition_of, typed_conditions_of};
ghost use Rattle.isle_check_rules.specs.Views.{typed_rule_of};

use crate::asks::{Ask, add_asks, add_list_asks, constrain};
use crate::openings::Terms;
use crate::values::expression_value;
use isle_check_places::{Constraint, Place, Under};
use isle_check_rules::{TypedIfLet, TypedRule};
use std::alloc::{AllocError, Global};

/// Returns what a rule asks, in order.
pub fn rule_asks<'a>(
    alloc: Global,
    terms: Terms,
    rule: &'a TypedRule,
) -> Result<Vec<Ask<'a>>, AllocError>
    ensures { IfOk result (λ made. asks_of made.items
        ≡ rule_asks (terms_of terms.entry) (typed_rule_of rule.now)) }
{
    let mut asks = Vec::new(alloc);
    add_list_asks(alloc, terms, Under::Arguments, &rule.args, &[], &mut asks)?;
    add_conditions(alloc, terms, &rule.iflets, &mut asks)?;
    Ok(asks)
}

fn add_conditions<'a>(
    alloc: Global,
    terms: Terms,
    iflets: &'a [TypedIfLet],
    asks: &mut Vec<Ask<'a>>,
) -> Result<(), AllocError>
    ensures { OnOk result (asks_of asks.new.items ≡ conditions_asks (terms_of terms.entry)
        (asks_of asks.old.items) (typed_conditions_of iflets.now)) }
{
    for iflet in iflets {
        add_condition(alloc, terms, iflet, asks)?;
    }
    Ok(())
}

fn add_condition<'a>(
    alloc: Global,
    terms: Terms,
    iflet: &'a TypedIfLet,
    asks: &mut Vec<Ask<'a>>,
) -> Result<(), AllocError>
    ensures { OnOk result (asks_of asks.new.items ≡ asks_of asks.old.items
        ++ matched (terms_of terms.entry) (typed_condition_of iflet.now)
        (value (terms_of terms.entry) (asks_of asks.old.items)
        (typed_condition_of iflet.now).expr)) }
{
    let given = expression_value(alloc, terms, asks, &iflet.expr)?;
    add_needs(alloc, &given.needs, asks)?;
    add_asks(alloc, terms, &iflet.pattern, &given.at, asks)
}

fn add_needs<'a>(
    alloc: Global,
    needs: &[Place<'a>],
    asks: &mut Vec<Ask<'a>>,
) -> Result<(), AllocError>
    ensures { OnOk result (asks_of asks.new.items
        ≡ asks_of asks.old.items ++ map needed (places_of needs.now)) }
{
    for place in needs {
        constrain(alloc, place, Constraint::Present, asks)?;
    }
    Ok(())
}
