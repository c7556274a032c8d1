//! Elements of any type, as they are written (X.690 8.1.1, 10.1).
ghost use Rattle.std.specs.Prelude.{◌≡◌, ◌++◌, ℕ, List, true, false, length, Ok, IfOk, IfErr};
ghost use Rattle.std.specs.Io.KnownBytes.{Appends};
ghost use Rattle.x690.specs.Lengths.{definite};
ghost use Rattle.asn1_headers.specs.Header.{length_of};
ghost use Rattle.asn1_headers.specs.Length.{form_of};
ghost use Rattle.asn1_headers.specs.Header.Writing.{strict_header};
ghost use Rattle.asn1_rs.specs.Any.Writing.{content_of, element_header, element_writing};
ghost use Rattle.asn1_rs.specs.Laws.Any.Writing.{element_same, element_lawful_writing};
ghost use Rattle.asn1_headers.specs.Writer.{Wrote, MayRefuse};
ghost use Rattle.asn1_rs.specs.ToDer.{Refuses, RefusesCount, VectorRefuses, Either};
ghost use Rattle.asn1_headers.specs.Error.{tells_of_io};

use crate::asn1_types::any::Any;
use crate::header::{element_len, put_behind};
use crate::laws::{LawfulMember, LawfulWrite};
use crate::to_der::ToDer;
use asn1_headers::buffer::{DerBuffer, prepend_element, prepend_octets};
use asn1_headers::error::{Error, SerializeResult, without_io};
use asn1_headers::header::writing::{put_header, put_strict_header};
use asn1_headers::writer::{DerWrite, Told, put_all};
use std::alloc::Global;

/// An element is written with the strict identifier of its header and the length of its contents octets, whatever
/// length its header has.
impl ToDer for Any<'_> {
    ghost writing = { element_writing };

    ghost raw_is_der = { λ any. form_of (length_of any.header) ≡
        definite (length (content_of any)) };

    fn to_der_len(&self) -> Result<usize, Error>
        ensures count { IfOk result
            (λ n. n ≡ length (element_header self.now ++ content_of self.now)) }
        ensures refused { IfErr result
            (RefusesCount false (length (element_header self.now ++ content_of self.now))
            (λ _. ⊥)) }
    {
        element_len(self.header.tag().0, Ok(self.content.len()))
    }

    fn der_content_len(&self) -> Result<usize, Error>
        ensures count { IfOk result (λ n. n ≡ length (content_of self.now)) }
        ensures refused { IfErr result
            (RefusesCount false (length (content_of self.now)) (λ _. ⊥)) }
        ensures exact { result ≡ Ok (length (content_of self.now)) }
    {
        Ok(self.content.len())
    }

    fn der_constructed(&self) -> bool {
        self.header.constructed()
    }

    fn write_der_header<W: DerWrite>(&self, _alloc: Global, w: &mut W) -> SerializeResult<usize> {
        let class = self.header.class().number();
        let constructed = self.header.constructed();
        put_header(
            class,
            constructed,
            self.header.tag().0,
            self.content.len(),
            w,
        )
    }

    fn write_der_content<W: DerWrite>(&self, _alloc: Global, w: &mut W) -> SerializeResult<usize> {
        put_all(w, self.content)
    }

    #[inline(always)]
    fn write_der<W: DerWrite>(&self, _alloc: Global, w: &mut W) -> SerializeResult<usize>
        ensures wrote { Wrote (element_header self.now ++ content_of self.now) (W.state w.old)
            (W.state w.new) result }
        ensures refused { IfErr result
            (Refuses false (length (element_header self.now ++ content_of self.now))
            (Either (λ _. ⊥) (λ _. ⊥))) }
        ensures fits { IfErr result (MayRefuse false 0) }
    {
        let class = self.header.class().number();
        let number = self.header.tag().0;
        let len = self.content.len();
        let header = put_header(class, self.header.constructed(), number, len, w);
        put_behind(header, self.content, w)
    }

    fn prepend_der_content(&self, _alloc: Global, buf: &mut DerBuffer) -> SerializeResult<usize> {
        prepend_octets(self.content, buf)
    }

    fn prepend_der(&self, _alloc: Global, buf: &mut DerBuffer) -> SerializeResult<usize> {
        let class = self.header.class().number();
        let number = self.header.tag().0;
        let content = prepend_octets(self.content, buf);
        prepend_element(class, self.header.constructed(), number, content, buf)
    }

    /// Appends the strict identifier octets, the length of the header (80 where it is indefinite), and the contents
    /// octets as they stand.
    fn write_der_raw<W: DerWrite>(&self, _alloc: Global, w: &mut W) -> SerializeResult<usize>
        ensures raw { Wrote (strict_header self.now.header ++ content_of self.now) (W.state w.old)
            (W.state w.new) result }
        ensures failed { IfErr result
            (MayRefuse false (length (strict_header self.now.header ++ content_of self.now))) }
        ensures fits { IfErr result (MayRefuse false 0) }
        ensures der { form_of (length_of self.now.header) ≡
            definite (length (content_of self.now)) →
            Wrote (element_header self.now ++ content_of self.now) (W.state w.old)
            (W.state w.new) result }
        ensures refused { form_of (length_of self.now.header) ≡
            definite (length (content_of self.now)) →
            IfErr result
            (Refuses false (length (element_header self.now ++ content_of self.now))
            (Either (λ _. ⊥) (λ _. ⊥))) }
        ensures counted { IfOk result
            (λ n. (raw : List ℕ) × Appends (W.state w.old).told (W.state w.new).told raw ×
            (n ≡ length raw)) }
    {
        let header = put_strict_header(&self.header, w);
        put_behind(header, self.content, w)
    }

    /// The raw form in a vector.
    fn to_der_vec_raw(&self, alloc: Global) -> SerializeResult<Vec<u8>>
        ensures raw { IfOk result
            (λ octets. octets.items ≡ strict_header self.now.header ++ content_of self.now) }
        ensures failed { IfErr result
            (MayRefuse true (length (strict_header self.now.header ++ content_of self.now))) }
        ensures der { form_of (length_of self.now.header) ≡
            definite (length (content_of self.now)) →
            IfOk result (λ octets. octets.items ≡ element_header self.now ++ content_of self.now) }
        ensures refused { form_of (length_of self.now.header) ≡
            definite (length (content_of self.now)) →
            IfErr result
            (VectorRefuses (length (element_header self.now ++ content_of self.now))
            (Either (λ _. ⊥) (λ _. ⊥))) }
        ensures memory { IfErr result (λ e. tells_of_io e ≡ false) }
    {
        let mut w = Told::new(Vec::new(alloc));
        match self.write_der_raw(alloc, &mut w) {
            Ok(_) => Ok(w.into_inner()),
            Err(e) => Err(without_io(e)),
        }
    }
}

impl LawfulWrite for Any<'_> {
    ghost lawful_writing = { element_lawful_writing };
}

impl LawfulMember for Any<'_> {
    ghost same = { element_same };
}
