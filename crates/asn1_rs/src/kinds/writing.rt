//! How types of items come by [`ToDer`] and the laws of it. It is by the contents octets of one element, or by the item
//! that they hold or refer to.
ghost use Rattle.std.specs.Prelude.{◌≡◌, ◌≤◌, take, ◌++◌, ◌+◌, ◌<◌, ◌^◌, ℕ, Bool, false, List, length, Err, IfOk};
ghost use Rattle.std.specs.Prelude.{IfErr, IfSome, IsErr};
ghost use Rattle.asn1_headers.specs.Error.{vector_refusal};
ghost use Rattle.asn1_headers.specs.Prepended.{Prepended};
ghost use Rattle.asn1_rs.specs.Grammar.{FormNumber, FormTakes};
ghost use Rattle.asn1_headers.specs.Writer.{Wrote, MayRefuse};
ghost use Rattle.asn1_rs.specs.ToDer.{Writing, MayRefuseCount, Refuses, RefusesCount, IsRefusedAtOnce, RefusedAtOnce};
ghost use Rattle.asn1_rs.specs.ToDer.{KeepsOrMayRefuse, VectorRefuses, inner_writing, whole_allocates, whole_octets};
ghost use Rattle.asn1_rs.specs.ToDer.{whole_refuses};
ghost use Rattle.asn1_headers.specs.declared.error.SerializeError.{SerializeError};
ghost use Rattle.asn1_headers.specs.declared.error.Error.{Error};
ghost use Rattle.asn1_rs.specs.Kinds.Writing.{universal_header, universal_writing, CountRefused, IsPieceOf};
ghost use Rattle.asn1_rs.specs.Kinds.Writing.{piece_octets, OwnPutRefused, PrependRefused};
ghost use Rattle.asn1_rs.specs.Kinds.Writing.{IsWrittenElement};
ghost use Rattle.asn1_rs.specs.Laws.Forms.{universal_number, universal_number_fits, universal_lawful_writing};
ghost use Rattle.asn1_rs.specs.Grammar.Item.{IsLawfulWriting};
ghost use Rattle.asn1_rs.specs.Laws.Writing.{inner_lawful_writing};

use crate::header::{count_that_fits, element_len, put_counted_header};
use crate::kinds::{ElementKind, HasKind, HolderKind, Holds, LawfulElement};
use crate::laws::{Grammar, LawfulItem, LawfulTagged, LawfulWrite, TakesClass};
use crate::to_der::{ToDer, stands};
use crate::traits::{DynTagged, Tagged};
use asn1_headers::buffer::{DerBuffer, prepend_element, prepend_octets};
use asn1_headers::error::{Error, SerializeResult};
use asn1_headers::writer::{DerWrite, Sink, add_written, put_all};
use std::alloc::Global;

/// The octets of a short element, at the front of an array.
#[derive(Debug, Clone, Copy)]
pub struct Piece {
    octets: [u8; 16],
    count: usize,
}

impl Piece {
    /// The first octets of the array, so many.
    #[inline(always)]
    pub fn new(octets: [u8; 16], count: usize) -> Piece
        requires { count ≤ 16 }
        ensures count { result.count ≤ 16 }
        ensures octets { piece_octets result ≡ take count octets }
    {
        Piece { octets, count }
    }

    /// Its octets.
    #[inline(always)]
    pub fn as_bytes(&self) -> &[u8]
        requires { self.now.count ≤ 16 }
        ensures { result.now ≡ piece_octets self.now }
    {
        &self.octets[..self.count]
    }
}

/// A value that is written as one element of the universal class: the tag number of its type, and contents octets. The
/// element is constructed exactly for the tags of sequence and set. Out of memory is answered only where it goes into a
/// vector or in front of a buffer.
///
/// A type some of whose values can't be written says which, and how they are refused. Such a value is refused in
/// counting too, and nothing of it is appended.
///
/// So it has [`ToDer`], [`LawfulWrite`], [`LawfulTagged`] and [`TakesClass`].
pub trait WritesElement: LawfulElement + Tagged {
    /// Its contents octets.
    ghost octets: { Self → List ℕ };

    /// Whether it is refused for what it is.
    ghost is_refused: { Self → Bool } = { λ _. false };

    /// With what it is refused then.
    ghost refusal: { Self → Error → Type 0 } = { λ _ _. ⊥ };

    /// How many contents octets are appended.
    fn count_octets(&self) -> Result<usize, Error>
        ensures count { IfOk result (λ n. n ≡ length (octets self.now)) }
        ensures refused { CountRefused (is_refused self.now) (refusal self.now)
            (length (octets self.now)) result };

    /// Appends the contents octets, and answers their number.
    fn put_octets<W: DerWrite>(&self, w: &mut W) -> SerializeResult<usize>
        ensures wrote { Wrote (octets self.now) (W.state w.old) (W.state w.new) result }
        ensures refused { OwnPutRefused (is_refused self.now) (refusal self.now)
            (length (octets self.now)) (W.state w.old) (W.state w.new) result };

    /// The whole element in one piece, of a type whose contents octets are few. A value that is refused has none.
    #[inline(always)]
    fn piece(&self) -> Option<Piece>
        ensures { IfSome result (IsPieceOf (is_refused self.now)
            (universal_header (Self.TAG).0 (octets self.now) ++ octets self.now)) }
    {
        None
    }

    /// Appends the whole element, and answers its length. One past `usize` is refused before anything is appended.
    #[inline(always)]
    fn put_element<W: DerWrite>(&self, w: &mut W) -> SerializeResult<usize>
        ensures wrote { Wrote (universal_header (Self.TAG).0 (octets self.now) ++ octets self.now)
            (W.state w.old) (W.state w.new) result }
        ensures refused { OwnPutRefused (is_refused self.now) (refusal self.now)
            (length (universal_header (Self.TAG).0 (octets self.now) ++ octets self.now))
            (W.state w.old) (W.state w.new) result }
        ensures kept { KeepsOrMayRefuse false (W.state w.old) (W.state w.new) result }
    {
        let tag = Self::TAG;
        let count = count_that_fits(tag.0, self.count_octets());
        let before = put_counted_header(0, tag.is_container(), tag.0, count, w)?;
        let after = self.put_octets(w)?;
        add_written(before, after)
    }

    /// Puts the contents octets before those of the buffer, and answers their number.
    fn prepend_contents(&self, alloc: Global, buf: &mut DerBuffer) -> SerializeResult<usize>
        ensures prepended { Prepended (octets self.now) buf.old buf.new result }
        ensures refused { PrependRefused (is_refused self.now) (refusal self.now)
            (length (octets self.now) + length buf.old) buf.old buf.new result };

    /// They follow from the value, and are its strict content where it has one, which is not refused; another class
    /// changes nothing.
    ghost written: { IsWrittenElement Self.element (Self.TAG).0 octets is_refused };
}

/// A value that holds its contents octets, and is written as one element of them.
///
/// So it has [`WritesElement`].
pub trait WritesOctets: LawfulElement + Tagged {
    /// The octets that it holds.
    ghost held: { Self → List ℕ };

    /// The octets that it holds.
    fn contents_octets(&self) -> &[u8]
        ensures { result.now ≡ held self.now };

    /// They follow from the value, and are its strict content where it has one; another class changes nothing.
    ghost held_are: { IsWrittenElement Self.element (Self.TAG).0 held (λ _. false) };
}

impl<T: WritesOctets> WritesElement for T {
    ghost octets = { T.held };

    fn count_octets(&self) -> Result<usize, Error> {
        Ok(self.contents_octets().len())
    }

    fn put_octets<W: DerWrite>(&self, w: &mut W) -> SerializeResult<usize> {
        put_all(w, self.contents_octets())
    }

    fn prepend_contents(&self, _alloc: Global, buf: &mut DerBuffer) -> SerializeResult<usize> {
        prepend_octets(self.contents_octets(), buf)
    }

    ghost written = { T.held_are };
}

/// The calls of [`ToDer`], for a type of this kind.
pub trait ToDerBy<K>: DynTagged {
    /// What the ghost members of [`ToDer`] tell.
    ghost writing: { Writing Self };

    /// `to_der_len`.
    fn element_count(&self) -> Result<usize, Error>
        ensures count { writing.tells self.now →
            IfOk result (λ n. n ≡ length (whole_octets writing self.now)) }
        ensures refused { writing.tells self.now →
            IfErr result
            (RefusesCount writing.count_allocates
            (length (whole_octets writing self.now))
            (writing.count_refuses self.now)) }
        ensures accepted { (e : Error) → writing.tells self.now →
            writing.count_refuses self.now e → IsErr result };

    /// `der_content_len`.
    fn content_count(&self) -> Result<usize, Error>
        ensures count { writing.tells self.now →
            IfOk result (λ n. n ≡ length (writing.content self.now)) }
        ensures refused { writing.tells self.now →
            IfErr result (RefusesCount writing.count_allocates
            (length (writing.content self.now)) (writing.count_refuses self.now)) }
        ensures accepted { (e : Error) → writing.tells self.now →
            writing.count_refuses self.now e → IsErr result };

    /// `der_constructed`.
    fn is_constructed(&self) -> bool
        ensures { writing.tells self.now → result ≡ writing.constructed self.now };

    /// `write_der_header`.
    fn put_header<W: DerWrite>(&self, alloc: Global, w: &mut W) -> SerializeResult<usize>
        ensures wrote { writing.tells self.now →
            Wrote (writing.header self.now) (W.state w.old) (W.state w.new) result }
        ensures refused { writing.tells self.now →
            IfErr result
            (Refuses writing.count_allocates
            (length (whole_octets writing self.now))
            (writing.header_refuses self.now)) }
        ensures at_once { (e : SerializeError) → writing.tells self.now →
            writing.header_refuses self.now e →
            IsRefusedAtOnce writing.count_allocates
            (length (whole_octets writing self.now))
            (writing.header_refuses self.now) (W.state w.old) (W.state w.new) result }
        ensures first { (e : SerializeError) → writing.refuses_first self.now e →
            RefusedAtOnce e (W.state w.old) (W.state w.new) result };

    /// `write_der_content`.
    fn put_content<W: DerWrite>(&self, alloc: Global, w: &mut W) -> SerializeResult<usize>
        ensures wrote { writing.tells self.now →
            Wrote (writing.content self.now) (W.state w.old) (W.state w.new) result }
        ensures refused { writing.tells self.now →
            IfErr result (Refuses writing.content_allocates
            (length (writing.content self.now)) (writing.content_refuses self.now)) }
        ensures accepted { (e : SerializeError) → writing.tells self.now →
            writing.content_refuses self.now e → IsErr result }
        ensures uncounted { (e : Error) → writing.tells self.now →
            writing.count_refuses self.now e → IsErr result }
        ensures first { (e : SerializeError) → writing.refuses_first self.now e →
            RefusedAtOnce e (W.state w.old) (W.state w.new) result };

    /// `prepend_der_content`.
    fn prepend_content(&self, alloc: Global, buf: &mut DerBuffer) -> SerializeResult<usize>
        ensures prepended { writing.tells self.now →
            Prepended (writing.content self.now) buf.old buf.new result }
        ensures refused { writing.tells self.now →
            IfErr result (VectorRefuses (length (writing.content self.now) + length buf.old)
            (writing.content_refuses self.now)) }
        ensures accepted { (e : SerializeError) → writing.tells self.now →
            writing.content_refuses self.now e → IsErr result }
        ensures uncounted { (e : Error) → writing.tells self.now →
            writing.count_refuses self.now e → IsErr result }
        ensures first { (e : SerializeError) → writing.refuses_first self.now e →
            (result ≡ Err (vector_refusal e)) × (buf.new ≡ buf.old) };

    /// `prepend_der`.
    fn prepend_whole(&self, alloc: Global, buf: &mut DerBuffer) -> SerializeResult<usize>
        ensures prepended { writing.tells self.now →
            Prepended (whole_octets writing self.now) buf.old buf.new result }
        ensures refused { writing.tells self.now →
            IfErr result (VectorRefuses (length (whole_octets writing self.now) + length buf.old)
            (whole_refuses writing self.now)) }
        ensures accepted { (e : SerializeError) → writing.tells self.now →
            whole_refuses writing self.now e → IsErr result }
        ensures uncounted { (e : Error) → writing.tells self.now →
            writing.count_refuses self.now e → IsErr result }
        ensures first { (e : SerializeError) → writing.refuses_first self.now e →
            (result ≡ Err (vector_refusal e)) × (buf.new ≡ buf.old) };

    /// `write_der`: from the back, where the kind has no better way. Where memory is refused for that, header and
    /// contents octets, but first to a sink, where a value's own refusal shows.
    #[inline(always)]
    fn put_whole<W: DerWrite>(&self, alloc: Global, w: &mut W) -> SerializeResult<usize>
        ensures wrote { writing.tells self.now →
            Wrote (whole_octets writing self.now)
            (W.state w.old) (W.state w.new) result }
        ensures refused { writing.tells self.now →
            IfErr result
            (Refuses (whole_allocates writing)
            (length (whole_octets writing self.now))
            (whole_refuses writing self.now)) }
        ensures accepted { (e : SerializeError) → writing.tells self.now →
            writing.content_refuses self.now e → IsErr result }
        ensures uncounted { (e : Error) → writing.tells self.now →
            writing.count_refuses self.now e → IsErr result }
        ensures at_once { (e : SerializeError) → writing.tells self.now →
            writing.header_refuses self.now e →
            IsRefusedAtOnce (whole_allocates writing)
            (length (whole_octets writing self.now))
            (whole_refuses writing self.now)
            (W.state w.old) (W.state w.new) result }
        ensures first { (e : SerializeError) → writing.refuses_first self.now e →
            RefusedAtOnce e (W.state w.old) (W.state w.new) result }
        ensures kept { writing.tells self.now →
            KeepsOrMayRefuse (whole_allocates writing) (W.state w.old) (W.state w.new) result }
    {
        let mut buf = DerBuffer::new(alloc);
        if stands(self.prepend_whole(alloc, &mut buf))? {
            return put_all(w, buf.as_bytes());
        }
        let mut sink = Sink;
        let header = self.put_header(alloc, &mut sink)?;
        let content = self.put_content(alloc, &mut sink)?;
        add_written(header, content)?;
        let before = self.put_header(alloc, w)?;
        let after = self.put_content(alloc, w)?;
        add_written(before, after)
    }
}

impl<T: WritesElement> ToDerBy<ElementKind> for T {
    ghost writing = { universal_writing (T.TAG).0 T.octets T.is_refused T.refusal };

    fn element_count(&self) -> Result<usize, Error> {
        element_len(T::TAG.0, self.count_octets())
    }

    fn content_count(&self) -> Result<usize, Error> {
        self.count_octets()
    }

    fn is_constructed(&self) -> bool {
        T::TAG.is_container()
    }

    #[inline(always)]
    fn put_header<W: DerWrite>(&self, _alloc: Global, w: &mut W) -> SerializeResult<usize> {
        let tag = T::TAG;
        put_counted_header(0, tag.is_container(), tag.0, self.count_octets(), w)
    }

    #[inline(always)]
    fn put_content<W: DerWrite>(&self, _alloc: Global, w: &mut W) -> SerializeResult<usize> {
        self.put_octets(w)
    }

    // (a short piece is put here and not in `put_element`, whose hint is lost in an impl that keeps its body)
    #[inline(always)]
    fn put_whole<W: DerWrite>(&self, _alloc: Global, w: &mut W) -> SerializeResult<usize> {
        if let Some(piece) = self.piece() {
            return put_all(w, piece.as_bytes());
        }
        self.put_element(w)
    }

    #[inline(always)]
    fn prepend_content(&self, alloc: Global, buf: &mut DerBuffer) -> SerializeResult<usize> {
        self.prepend_contents(alloc, buf)
    }

    #[inline(always)]
    fn prepend_whole(&self, alloc: Global, buf: &mut DerBuffer) -> SerializeResult<usize> {
        if let Some(piece) = self.piece() {
            return prepend_octets(piece.as_bytes(), buf);
        }
        let tag = T::TAG;
        let content = self.prepend_contents(alloc, buf);
        prepend_element(0, tag.is_container(), tag.0, content, buf)
    }
}

/// What holds an item is written as that. Its raw form is the DER form.
// A reference has its tag number by its type alone, so the item is asked for `Tagged`. A reference to an `Any` or a
// `Header` is not written; the value itself is.
impl<H: Holds<Held = T>, T: ToDer + Tagged> ToDerBy<HolderKind> for H {
    ghost writing = { inner_writing H.held T.writing };

    fn element_count(&self) -> Result<usize, Error> {
        T::to_der_len(self.held())
    }

    fn content_count(&self) -> Result<usize, Error> {
        T::der_content_len(self.held())
    }

    fn is_constructed(&self) -> bool {
        T::der_constructed(self.held())
    }

    fn put_header<W: DerWrite>(&self, alloc: Global, w: &mut W) -> SerializeResult<usize> {
        T::write_der_header(self.held(), alloc, w)
    }

    fn put_content<W: DerWrite>(&self, alloc: Global, w: &mut W) -> SerializeResult<usize> {
        T::write_der_content(self.held(), alloc, w)
    }

    #[inline(always)]
    fn put_whole<W: DerWrite>(&self, alloc: Global, w: &mut W) -> SerializeResult<usize> {
        T::write_der(self.held(), alloc, w)
    }

    fn prepend_content(&self, alloc: Global, buf: &mut DerBuffer) -> SerializeResult<usize> {
        T::prepend_der_content(self.held(), alloc, buf)
    }

    fn prepend_whole(&self, alloc: Global, buf: &mut DerBuffer) -> SerializeResult<usize> {
        T::prepend_der(self.held(), alloc, buf)
    }
}

impl<T: HasKind + ToDerBy<T::Kind>> ToDer for T {
    ghost writing = { T.writing };

    fn to_der_len(&self) -> Result<usize, Error> {
        self.element_count()
    }

    fn der_content_len(&self) -> Result<usize, Error> {
        self.content_count()
    }

    fn der_constructed(&self) -> bool {
        self.is_constructed()
    }

    #[inline(always)]
    fn write_der_header<W: DerWrite>(&self, alloc: Global, w: &mut W) -> SerializeResult<usize> {
        self.put_header(alloc, w)
    }

    #[inline(always)]
    fn write_der_content<W: DerWrite>(&self, alloc: Global, w: &mut W) -> SerializeResult<usize> {
        self.put_content(alloc, w)
    }

    #[inline(always)]
    fn write_der<W: DerWrite>(&self, alloc: Global, w: &mut W) -> SerializeResult<usize> {
        self.put_whole(alloc, w)
    }

    #[inline(always)]
    fn prepend_der_content(&self, alloc: Global, buf: &mut DerBuffer) -> SerializeResult<usize> {
        self.prepend_content(alloc, buf)
    }

    #[inline(always)]
    fn prepend_der(&self, alloc: Global, buf: &mut DerBuffer) -> SerializeResult<usize> {
        self.prepend_whole(alloc, buf)
    }
}

/// The laws of what is written, for a type of this kind.
pub trait LawfulWriteBy<K>: ToDer + LawfulItem {
    /// `lawful_writing`.
    ghost lawful_writing_by_kind: { IsLawfulWriting Self.grammar Self.writing };
}

impl<T: WritesElement> LawfulWriteBy<ElementKind> for T {
    ghost lawful_writing_by_kind = { universal_lawful_writing T.element
        (T.TAG).0 T.octets T.is_refused T.written T.refusal };
}

impl<H: Holds<Held = T>, T: LawfulWrite + Tagged> LawfulWriteBy<HolderKind> for H {
    ghost lawful_writing_by_kind = { inner_lawful_writing H.held T.grammar T.writing
        T.lawful_writing };
}

impl<T: HasKind + LawfulWriteBy<T::Kind>> LawfulWrite for T {
    ghost lawful_writing = { T.lawful_writing_by_kind };
}

/// The laws of the tag number, for a type of this kind.
pub trait LawfulTaggedBy<K>: Grammar + Tagged {
    /// `tag_number`.
    ghost number_by_kind: { FormNumber Self.grammar.Form (Self.TAG).0 };

    /// `number_fits`.
    ghost number_is_small: { (Self.TAG).0 < 2 ^ 32 };
}

impl<T: WritesElement> LawfulTaggedBy<ElementKind> for T {
    ghost number_by_kind = { universal_number T.element (T.TAG).0 T.octets T.is_refused
        T.written };

    ghost number_is_small = { universal_number_fits T.element (T.TAG).0 T.octets T.is_refused
        T.written };
}

impl<H: Holds<Held = T>, T: LawfulTagged> LawfulTaggedBy<HolderKind> for H {
    ghost number_by_kind = { T.tag_number };

    ghost number_is_small = { T.number_fits };
}

impl<T: HasKind + LawfulTaggedBy<T::Kind>> LawfulTagged for T {
    ghost tag_number = { T.number_by_kind };

    ghost number_fits = { T.number_is_small };
}

/// The law of implicit tags of class `C`, for a type of this kind.
pub trait TakesClassBy<K, const C: u8>: LawfulTagged {
    /// `takes_class`.
    ghost takes_this_class: { FormTakes Self.grammar.Form Self.grammar.Check Self.grammar.Body C };
}

impl<T: WritesElement, const C: u8> TakesClassBy<ElementKind, C> for T {
    ghost takes_this_class = { T.written.class C };
}

impl<H: Holds<Held = T>, T: TakesClass<C>, const C: u8> TakesClassBy<HolderKind, C> for H {
    ghost takes_this_class = { T.takes_class };
}

impl<T: HasKind + TakesClassBy<T::Kind, C>, const C: u8> TakesClass<C> for T {
    ghost takes_class = { T.takes_this_class };
}
