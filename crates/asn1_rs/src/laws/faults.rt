//! What readers of elements refuse before all else: octets that no header begins, and elements that are cut.
ghost use Rattle.x690.specs.Elements.{IsDerElement};
ghost use Rattle.x690.specs.Faults.{DerElementFault};
ghost use Rattle.x690.specs.Nested.{IsElement, ElementFault};
ghost use Rattle.x690.specs.Rules.{der_rule, ber_rule};
ghost use Rattle.asn1_headers.specs.Ber.{max_depth};
ghost use Rattle.asn1_headers.specs.Header.Reading.{ber_violation, der_violation};
ghost use Rattle.asn1_rs.specs.Faults.{TellsHeaderFirst, TruncationsAreCounted, TruncationsAreCountedOrWithin};
ghost use Rattle.asn1_rs.specs.Lists.{ListConverts};
ghost use Rattle.asn1_rs.specs.Tagged.{ThenByBer, ThenByDer};
ghost use Rattle.asn1_rs.specs.Tagged.Explicit.{ExplicitGives};
ghost use Rattle.asn1_rs.specs.Tagged.Parser.{TakesExplicit, TakesWholeContent, TakesImplicit, ChecksAndConverts};
ghost use Rattle.asn1_rs.specs.Traits.{BerGives, DerGives, OfParts, PassesAll};
ghost use Rattle.asn1_rs.specs.declared.asn1_types.tagged.TaggedValue.{TaggedValue};

use crate::asn1_types::lists::FromItems;
use crate::kinds::reading::EncodingForm;
use crate::traits::{CheckDerConstraints, FromAny, FromBer, FromDer, Tagged};
use asn1_headers::error::Error;

/// By BER, of each type that an element converts to, octets that no header begins are refused as the header is.
/// `Incomplete` is the fault of the element, which lacks so many octets, one at least.
pub fn faults_come_first_by_ber<'a, T, E>()
where
    T: FromAny<'a, Error = E>,
    E: From<Error>,
    ensures header { TellsHeaderFirst ber_rule ber_violation E.from_gives
        (BerGives T.any_gives E.from_gives) }
    ensures truncated { TruncationsAreCounted (ElementFault max_depth) (BerGives T.any_gives E.from_gives) }
{}

/// So it is by DER, where constraints are checked, and where they are not, as under an implicit tag.
pub fn faults_come_first_by_der<'a, T, E>()
where
    T: FromAny<'a, Error = E> + CheckDerConstraints,
    E: From<Error>,
    ensures header { TellsHeaderFirst der_rule der_violation E.from_gives
        (DerGives T.check_gives T.any_gives E.from_gives) }
    ensures truncated { TruncationsAreCounted DerElementFault
        (DerGives T.check_gives T.any_gives E.from_gives) }
    ensures unchecked { TellsHeaderFirst der_rule der_violation E.from_gives
        (DerGives PassesAll T.any_gives E.from_gives) }
    ensures unchecked_truncated { TruncationsAreCounted DerElementFault
        (DerGives PassesAll T.any_gives E.from_gives) }
{}

/// So it is by DER of lists, whose items are read by DER: what is cut in an item is no `Incomplete` of the list.
pub fn faults_of_lists_come_first<'a, L, T, F, E>()
where
    L: FromItems<Item = T>,
    T: FromDer<'a, E>,
    F: EncodingForm,
    E: From<Error>,
    ensures header { TellsHeaderFirst der_rule der_violation E.from_gives (DerGives PassesAll
        (OfParts (ListConverts (F.form_gives (L.TAG).0) L.holds T.der_gives E.from_gives))
        E.from_gives) }
    ensures truncated { TruncationsAreCounted DerElementFault (DerGives PassesAll
        (OfParts (ListConverts (F.form_gives (L.TAG).0) L.holds T.der_gives E.from_gives))
        E.from_gives) }
{}

/// So it is by DER of values under explicit tags, where `Incomplete` may be that of the value too.
pub fn faults_of_tags_come_first<'a, T, K, E, const CLASS: u8, const TAG: u32>()
where
    T: FromDer<'a, E>,
    E: From<Error>,
    ensures header { TellsHeaderFirst der_rule der_violation E.from_gives
        (ExplicitGives CLASS TAG (λ (t : TaggedValue T E K CLASS TAG). t.inner) T.der_gives
        E.from_gives) }
    ensures truncated { TruncationsAreCountedOrWithin DerElementFault IsDerElement T.der_gives
        (ExplicitGives CLASS TAG (λ (t : TaggedValue T E K CLASS TAG). t.inner) T.der_gives
        E.from_gives) }
{}

/// `Incomplete` of a `TaggedParser` of an explicit tag tells what the element lacks, or what the value lacks in it.
pub fn truncations_of_explicit_parsers_are_counted<'a, T, K, E>()
where
    T: FromBer<'a, E> + FromDer<'a, E>,
    E: From<Error>,
    ensures ber { TruncationsAreCountedOrWithin (ElementFault max_depth) (IsElement max_depth) T.ber_gives
        (ThenByBer E.from_gives (TakesExplicit {K = K} T.ber_gives)) }
    ensures der { TruncationsAreCountedOrWithin DerElementFault IsDerElement T.der_gives
        (ThenByDer E.from_gives (TakesWholeContent {K = K} T.der_gives E.from_gives)) }
{}

/// That of a `TaggedParser` of an implicit tag tells what the element lacks.
pub fn truncations_of_implicit_parsers_are_counted<'a, T, K, E>()
where
    T: FromAny<'a, Error = E> + CheckDerConstraints + Tagged,
    E: From<Error>,
    ensures ber { TruncationsAreCounted (ElementFault max_depth)
        (ThenByBer E.from_gives (TakesImplicit {K = K} T.TAG T.any_gives)) }
    ensures der { TruncationsAreCounted DerElementFault (ThenByDer E.from_gives (TakesImplicit {K = K}
        T.TAG (ChecksAndConverts T.check_gives T.any_gives E.from_gives))) }
{}
