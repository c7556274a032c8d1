//! The answers to the names of types that hold items or a tagged value. Each name has a function of its own. The goals
//! of one function that asks for the laws of many such types take minutes to make.
ghost use Rattle.std.specs.Prelude.{OnOk};
ghost use Rattle.asn1vec_answers.specs.declared.request.Rule.TheVariants.{Der};
ghost use Rattle.asn1vec_answers.specs.declared.types.TypeName.TheVariants as names;
ghost use Rattle.asn1vec_answers.specs.Shown.{Gains};
ghost use Rattle.asn1vec_answers.specs.Types.{IsTypeAnswer};

use crate::request::Rule;
use crate::shown::{push_by_der, push_by_either};
use asn1_rs::{Error, SequenceOf, SetOf, TaggedExplicit, TaggedImplicit};
use std::alloc::{AllocError, Global};
use std::collections::{BTreeSet, HashSet};
use x509_name::Name;

/// Appends the answer to octets that are read as `vec.u8`.
pub(crate) fn push_vec_u8(
    alloc: Global,
    rule: Rule,
    octets: &[u8],
    buffer: &mut Vec<u8>,
    text: &mut Vec<u8>,
) -> Result<(), AllocError>
    ensures { OnOk result (Gains text.old.items text.new.items
        (IsTypeAnswer rule names.VecU8 octets.now)) }
{
    push_by_either::<Vec<u8>>(alloc, rule, octets, buffer, text)
}

/// Appends the answer to octets that are read as `vec.u32`.
pub(crate) fn push_vec_u32(
    alloc: Global,
    rule: Rule,
    octets: &[u8],
    buffer: &mut Vec<u8>,
    text: &mut Vec<u8>,
) -> Result<(), AllocError>
    ensures { OnOk result (Gains text.old.items text.new.items
        (IsTypeAnswer rule names.VecU32 octets.now)) }
{
    push_by_either::<Vec<u32>>(alloc, rule, octets, buffer, text)
}

/// Appends the answer to octets that are read as `vec.bool`.
pub(crate) fn push_vec_bool(
    alloc: Global,
    rule: Rule,
    octets: &[u8],
    buffer: &mut Vec<u8>,
    text: &mut Vec<u8>,
) -> Result<(), AllocError>
    ensures { OnOk result (Gains text.old.items text.new.items
        (IsTypeAnswer rule names.VecBool octets.now)) }
{
    push_by_either::<Vec<bool>>(alloc, rule, octets, buffer, text)
}

/// Appends the answer to octets that are read as `vec.vec.u8`.
pub(crate) fn push_vec_vec_u8(
    alloc: Global,
    rule: Rule,
    octets: &[u8],
    buffer: &mut Vec<u8>,
    text: &mut Vec<u8>,
) -> Result<(), AllocError>
    ensures { OnOk result (Gains text.old.items text.new.items
        (IsTypeAnswer rule names.VecVecU8 octets.now)) }
{
    push_by_either::<Vec<Vec<u8>>>(alloc, rule, octets, buffer, text)
}

/// Appends the answer to octets that are read as `setof.u8`.
pub(crate) fn push_set_of_u8(
    alloc: Global,
    rule: Rule,
    octets: &[u8],
    buffer: &mut Vec<u8>,
    text: &mut Vec<u8>,
) -> Result<(), AllocError>
    ensures { OnOk result (Gains text.old.items text.new.items
        (IsTypeAnswer rule names.SetOfU8 octets.now)) }
{
    push_by_either::<SetOf<u8>>(alloc, rule, octets, buffer, text)
}

/// Appends the answer to octets that are read as `btreeset.u8`.
pub(crate) fn push_btree_set_u8(
    alloc: Global,
    rule: Rule,
    octets: &[u8],
    buffer: &mut Vec<u8>,
    text: &mut Vec<u8>,
) -> Result<(), AllocError>
    ensures { OnOk result (Gains text.old.items text.new.items
        (IsTypeAnswer rule names.BTreeSetU8 octets.now)) }
{
    push_by_either::<BTreeSet<u8>>(alloc, rule, octets, buffer, text)
}

/// Appends the answer to octets that are read as `hashset.i8`.
pub(crate) fn push_hash_set_i8(
    alloc: Global,
    rule: Rule,
    octets: &[u8],
    buffer: &mut Vec<u8>,
    text: &mut Vec<u8>,
) -> Result<(), AllocError>
    ensures { OnOk result (Gains text.old.items text.new.items
        (IsTypeAnswer rule names.HashSetI8 octets.now)) }
{
    push_by_either::<HashSet<i8>>(alloc, rule, octets, buffer, text)
}

/// Appends the answer to octets that are read as `seqof.u32`.
pub(crate) fn push_sequence_of_u32(
    alloc: Global,
    rule: Rule,
    octets: &[u8],
    buffer: &mut Vec<u8>,
    text: &mut Vec<u8>,
) -> Result<(), AllocError>
    ensures { OnOk result (Gains text.old.items text.new.items
        (IsTypeAnswer rule names.SeqOfU32 octets.now)) }
{
    push_by_either::<SequenceOf<u32>>(alloc, rule, octets, buffer, text)
}

/// Appends the answer to octets that are read as `explicit0.u32`.
pub(crate) fn push_explicit_0_u32(
    alloc: Global,
    rule: Rule,
    octets: &[u8],
    buffer: &mut Vec<u8>,
    text: &mut Vec<u8>,
) -> Result<(), AllocError>
    ensures { OnOk result (Gains text.old.items text.new.items
        (IsTypeAnswer rule names.Explicit0U32 octets.now)) }
{
    push_by_either::<TaggedExplicit<u32, Error, 0>>(alloc, rule, octets, buffer, text)
}

/// Appends the answer to octets that are read as `explicit31.u8`.
pub(crate) fn push_explicit_31_u8(
    alloc: Global,
    rule: Rule,
    octets: &[u8],
    buffer: &mut Vec<u8>,
    text: &mut Vec<u8>,
) -> Result<(), AllocError>
    ensures { OnOk result (Gains text.old.items text.new.items
        (IsTypeAnswer rule names.Explicit31U8 octets.now)) }
{
    push_by_either::<TaggedExplicit<u8, Error, 31>>(alloc, rule, octets, buffer, text)
}

/// Appends the answer to octets that are read as `vec.explicit31.u8`.
pub(crate) fn push_vec_explicit_31_u8(
    alloc: Global,
    rule: Rule,
    octets: &[u8],
    buffer: &mut Vec<u8>,
    text: &mut Vec<u8>,
) -> Result<(), AllocError>
    ensures { OnOk result (Gains text.old.items text.new.items
        (IsTypeAnswer rule names.VecExplicit31U8 octets.now)) }
{
    push_by_either::<Vec<TaggedExplicit<u8, Error, 31>>>(alloc, rule, octets, buffer, text)
}

/// Appends the answer to octets that are read as `implicit1.vec.u16`.
pub(crate) fn push_implicit_1_vec_u16(
    alloc: Global,
    rule: Rule,
    octets: &[u8],
    buffer: &mut Vec<u8>,
    text: &mut Vec<u8>,
) -> Result<(), AllocError>
    ensures { OnOk result (Gains text.old.items text.new.items
        (IsTypeAnswer rule names.Implicit1VecU16 octets.now)) }
{
    push_by_either::<TaggedImplicit<Vec<u16>, Error, 1>>(alloc, rule, octets, buffer, text)
}

/// Appends the answer to octets that are read as `x509name`, by DER.
pub(crate) fn push_x509_name(
    alloc: Global,
    octets: &[u8],
    buffer: &mut Vec<u8>,
    text: &mut Vec<u8>,
) -> Result<(), AllocError>
    ensures { OnOk result (Gains text.old.items text.new.items
        (IsTypeAnswer Der names.X509Name octets.now)) }
{
    push_by_der::<Name<'_>>(alloc, octets, buffer, text)
}
