//! What a search wants of which entries, as a part of its row.
ghost use Rattle.asn1_rs.specs.Prelude.{by_ber, part_of, PartGives, puts_of};
ghost use Rattle.asn1_rs_ldap.specs.Endings.{wanted_of};

use crate::{Filter, SearchRequest};
use asn1_rs::author::{BorrowedRow, Fields, ReadsRow, Row, Row3, row_by_ber};
use asn1_rs::{BerParser, Error, OctetString, SerializeResult};
use std::alloc::Global;

/// The fields from `typesOnly` on.
#[derive(Drop)]
pub struct Wanted<'a> {
    pub types_only: bool,
    pub filter: Filter<'a>,
    pub attributes: Vec<OctetString<'a>>,
}

/// Its fields.
type WantedFields<'a> = Row3<bool, Filter<'a>, Vec<OctetString<'a>>>;

impl<'a> Row for Wanted<'a> {
    ghost row_laws = { part_of (λ x. (x.types_only, (x.filter, (x.attributes, tt))))
        ⟦<WantedFields<'a> as Row>⟧.row_laws };
}

impl<'a> ReadsRow<'a, BerParser> for Wanted<'a> {
    ghost row_grammar = { ⟦<Wanted<'a> as Row>⟧.row_laws.grammar };

    ghost row_gives = { PartGives (λ x. (x.types_only, (x.filter, (x.attributes, tt))))
        by_ber ⟦<Wanted<'a> as Row>⟧.row_laws.grammar
        ⟦<WantedFields<'a> as ReadsRow<'a, BerParser>>⟧.row_gives };

    #[tactic(auto, using(asn1_rs::specs::Structs::PartsOfRows::part_read, asn1_rs::specs::Structs::PartsOfRows::part_refused))]
    fn read_row(alloc: Global, octets: &'a [u8]) -> Result<Wanted<'a>, Error> {
        match row_by_ber::<WantedFields<'a>>(alloc, octets) {
            Ok(row) => {
                let (types_only, (filter, (attributes, ()))) = row;
                Ok(Wanted {
                    types_only,
                    filter,
                    attributes,
                })
            }
            Err(e) => Err(e),
        }
    }
}

/// The same fields of a search, where it is written.
#[derive(Clone, Copy)]
pub struct WantedOf<'s, 'a>(pub &'s SearchRequest<'a>);

impl BorrowedRow for WantedOf<'_, '_> {
    ghost puts = { λ r. puts_of ⟦<Wanted<'static> as Row>⟧.row_laws.list (wanted_of r.0.now) };

    ghost have_values = { λ r. ⟦<Wanted<'static> as Row>⟧.row_laws.grammar.IsValue
        (⟦<Wanted<'static> as Row>⟧.row_laws.grammar.value (wanted_of r.0.now)) };

    fn put_each(&self, fields: &mut Fields) -> SerializeResult<()> {
        let search = self.0;
        let filter = (&search.filter, (&search.attributes, ()));
        (&search.types_only, filter).put_each(fields)
    }

    fn assert_each_valid(&self) {
        let search = self.0;
        let filter = (&search.filter, (&search.attributes, ()));
        (&search.types_only, filter).assert_each_valid()
    }
}
