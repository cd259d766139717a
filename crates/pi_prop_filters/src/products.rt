//! The filter of products.
ghost use Rattle.std.specs.Prelude.{◌≡◌, IfOk, length};
ghost use Rattle.pi_constraints.specs.Domain.{IsWithinBounds};
ghost use Rattle.pi_prop_spec.specs.Rules.{ProductKeeps};
ghost use Rattle.pi_prop_places.specs.Changes.{IsKeptAt, AreFiltered};
ghost use Rattle.pi_prop_filters.specs.Factors.{FactorStays};

use crate::corners::Ends;
use pi_prop_places::{Places, keep_between, keep_scaled};
use std::alloc::{AllocError, Global};

/// Leaves the places of a product, the product at 0 and its factors at 1 and 2, the values that its filter keeps. It looks at
/// the ends of the domains alone.
pub fn filter_product<P: Places>(alloc: Global, places: &mut P) -> Result<(), AllocError>
    requires { length (P.domains places.old) ≡ 3 }
    ensures { IfOk result (λ _. AreFiltered (ProductKeeps (P.domains places.old)) (P.domains places.old) (P.domains places.new)) }
{
    let product = Ends::at(places, 0);
    let first = Ends::at(places, 1);
    let second = Ends::at(places, 2);
    let corners = first.corners(second);
    keep_between(alloc, places, 0, corners.lo, corners.hi)?;
    keep_factor(alloc, places, 1, second, product)?;
    keep_factor(alloc, places, 2, first, product)?;
    Ok(())
}

/// Leaves a factor the values whose products lie between the ends of the product, where the other factor is fixed, and not to 0.
fn keep_factor<P: Places>(
    alloc: Global,
    places: &mut P,
    k: usize,
    other: Ends,
    product: Ends,
) -> Result<(), AllocError>
    requires low { IsWithinBounds other.lo }
    requires high { IsWithinBounds other.hi }
    requires product_low { IsWithinBounds product.lo }
    requires product_high { IsWithinBounds product.hi }
    ensures { IfOk result (λ _. IsKeptAt k (FactorStays other product) (P.domains places.old) (P.domains places.new)) }
{
    if other.lo != other.hi {
        return Ok(());
    }
    if other.lo == 0 {
        return Ok(());
    }
    keep_scaled(alloc, places, k, other.lo, product.lo, product.hi)?;
    Ok(())
}
