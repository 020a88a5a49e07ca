//! The order in which templates are expanded: each after those that it uses.

ghost use Rattle.std.specs.Prelude.{◌≡◌, ◌&&◌, ◌<◌, IfOk, [], false, get_or, length, map, not, suc};
ghost use Rattle.std.specs.Prelude.{true};
ghost use Rattle.isle_ast_rules.specs.TreeView.{pattern_of};
ghost use Rattle.isle_expand_core.specs.Mentions.{uses};
ghost use Rattle.isle_expand_core.specs.Order.{IsClosed, IsOrder, all_end, callee_places};
ghost use Rattle.isle_expand_core.specs.Order.{callees_in, unended};
ghost use Rattle.isle_expand_core.specs.Views.{begun_of};

use crate::macros::{Template, place_of};
use crate::mentions::uses;
use isle_ast::ast::Pattern;
use std::alloc::{AllocError, Global};

/// The templates whose expansion ends, in an order in which they can be expanded.
#[derive(Drop)]
pub struct Order {
    /// For each template, whether its expansion ends.
    pub ends: Vec<bool>,
    /// The indices of the templates whose expansion ends, each after those that it uses.
    pub places: Vec<usize>,
}

/// Finds and orders the templates whose expansion ends.
pub fn callee_order(alloc: Global, templates: &[Template]) -> Result<Order, AllocError>
    ensures order { IfOk result
        (λ order. IsOrder (callees_in (map begun_of templates.now)) order.ends.items
        order.places.items) }
    ensures closed { IfOk result
        (λ order. IsClosed (callees_in (map begun_of templates.now)) order.ends.items
        (length templates.now)) }
{
    let callees = callees(alloc, templates)?;
    settle(alloc, &callees)
}

/// Adds templates to the order until no further one has all its callees in it.
fn settle(alloc: Global, callees: &[Vec<usize>]) -> Result<Order, AllocError>
    ensures order { IfOk result
        (λ order. IsOrder (map (λ v. v.items) callees.now) order.ends.items order.places.items) }
    ensures closed { IfOk result
        (λ order. IsClosed (map (λ v. v.items) callees.now) order.ends.items
        (length callees.now)) }
{
    let mut order = Order {
        ends: vec![in alloc; false; callees.len()]?,
        places: Vec::new(alloc),
    };
    loop {
        if !add_ready(callees, &mut order)? {
            return Ok(order);
        }
    }
}

/// Adds the templates whose callees are all in the order. Returns whether there were any.
fn add_ready(callees: &[Vec<usize>], order: &mut Order) -> Result<bool, AllocError>
    requires { IsOrder (map (λ v. v.items) callees.now) order.old.ends.items
        order.old.places.items }
    ensures order { IfOk result
        (λ _. IsOrder (map (λ v. v.items) callees.now) order.new.ends.items
        order.new.places.items) }
    ensures closed { IfOk result
        (λ more. more ≡ false
        → IsClosed (map (λ v. v.items) callees.now) order.new.ends.items (length callees.now)) }
    ensures fewer { IfOk result
        (λ more. more ≡ true
        → unended order.new.ends.items < unended order.old.ends.items) }
{
    let mut more = false;
    for place in 0..callees.len() {
        if is_ready(callees, order, place) {
            add_template(callees, order, place)?;
            more = true;
        }
    }
    Ok(more)
}

/// Returns whether a template is not in the order, but all its callees are.
fn is_ready(callees: &[Vec<usize>], order: &Order, place: usize) -> bool
    requires within { place < length callees.now }
    requires count { length order.now.ends.items ≡ length callees.now }
    ensures { result
        ≡ (not (get_or order.now.ends.items place false)
        && all_end order.now.ends.items (get_or (map (λ v. v.items) callees.now) place [])) }
{
    !order.ends[place] && all_end(&callees[place], &order.ends)
}

fn add_template(callees: &[Vec<usize>], order: &mut Order, place: usize) -> Result<(), AllocError>
    requires order { IsOrder (map (λ v. v.items) callees.now) order.old.ends.items
        order.old.places.items }
    requires within { place < length callees.now }
    requires ready { (not (get_or order.old.ends.items place false)
        && all_end order.old.ends.items (get_or (map (λ v. v.items) callees.now) place [])) ≡ true }
    ensures order { IfOk result
        (λ _. IsOrder (map (λ v. v.items) callees.now) order.new.ends.items
        order.new.places.items) }
    ensures fewer { IfOk result
        (λ _. suc (unended order.new.ends.items) ≡ unended order.old.ends.items) }
{
    order.ends[place] = true;
    order.places.push(place)?;
    Ok(())
}

/// Returns whether the expansions of all these templates end.
fn all_end(places: &[usize], ends: &[bool]) -> bool
    ensures { result ≡ all_end ends.now places.now }
{
    places.iter().all(|place| is_set(ends, *place))
}

/// Returns the flag at an index, or `false` if there is none.
fn is_set(flags: &[bool], place: usize) -> bool
    ensures { result ≡ get_or flags.now place false }
{
    place < flags.len() && flags[place]
}

/// Returns, for each template, the indices of the extractors that it uses.
fn callees(alloc: Global, templates: &[Template]) -> Result<Vec<Vec<usize>>, AllocError>
    ensures { IfOk result
        (λ found. map (λ v. v.items) found.items ≡ callees_in (map begun_of templates.now)) }
{
    let mut found = Vec::with_capacity(alloc, templates.len())?;
    for template in templates {
        found.push(callees_of(alloc, &template.pattern, templates)?)?;
    }
    Ok(found)
}

/// Returns the indices of the extractors that a pattern uses.
fn callees_of(
    alloc: Global,
    pattern: &Pattern,
    templates: &[Template],
) -> Result<Vec<usize>, AllocError>
    ensures { IfOk result
        (λ places. places.items
        ≡ callee_places (map begun_of templates.now) (uses (pattern_of pattern.now))) }
{
    let mut places = Vec::new(alloc);
    let terms = uses(alloc, pattern)?;
    for term in &terms {
        if let Some(place) = place_of(term.term, templates) {
            places.push(place)?;
        }
    }
    Ok(places)
}
