//! Properties made of others: both of two, or one of them.
ghost use Rattle.std.specs.Prelude.{◌&&◌, ◌||◌};
ghost use Rattle.asn1_rs_profiles.specs.Refined.Ready.{both_go, either_goes};

use crate::refined::{LawfulProperty, Property};
use asn1_rs::laws::Grammar;
use std::marker::PhantomData;

/// What has both properties: `P ^ Q` (X.680 50.2).
#[derive_where(Debug)]
pub struct Both<P, Q>(PhantomData<(P, Q)>);

/// What has one of two properties, or both: `P | Q` (X.680 50.2). One of three numbers is
/// `Either<Range<1, 1>, Either<Range<3, 3>, Range<5, 5>>>`.
#[derive_where(Debug)]
pub struct Either<P, Q>(PhantomData<(P, Q)>);

impl<T, P: Property<T>, Q: Property<T>> Property<T> for Both<P, Q> {
    ghost keeps = { λ x. P.keeps x && Q.keeps x };

    fn holds(value: &T) -> bool {
        P::holds(value) && Q::holds(value)
    }
}

impl<T: Grammar, P: LawfulProperty<T>, Q: LawfulProperty<T>> LawfulProperty<T> for Both<P, Q> {
    ghost by_value = { both_go T.grammar.value P.keeps Q.keeps P.by_value Q.by_value };
}

impl<T, P: Property<T>, Q: Property<T>> Property<T> for Either<P, Q> {
    ghost keeps = { λ x. P.keeps x || Q.keeps x };

    fn holds(value: &T) -> bool {
        P::holds(value) || Q::holds(value)
    }
}

impl<T: Grammar, P: LawfulProperty<T>, Q: LawfulProperty<T>> LawfulProperty<T> for Either<P, Q> {
    ghost by_value = { either_goes T.grammar.value P.keeps Q.keeps P.by_value Q.by_value };
}
