//! Modules that are built in, each written anew by its standard, with the same names.

pub mod certificates;
pub mod kerberos;
pub mod keys;
pub mod ldap;
pub mod messages;
pub mod snmp;

use crate::source::Source;
use std::alloc::{AllocError, Global};

/// A text that is built in.
fn built_in(name: &'static str, text: &'static str) -> Source<'static> {
    Source {
        name,
        text: text.as_bytes(),
    }
}

/// All modules that are built in. Where two types have a name, that of the earlier one comes first.
pub fn standards(alloc: Global) -> Result<Vec<Source<'static>>, AllocError> {
    let sources = Vec::from_array(
        alloc,
        [
            built_in("PKIX1Explicit88", certificates::EXPLICIT),
            built_in("PKIX1Implicit88", certificates::IMPLICIT),
            built_in("PKIX1Algorithms88", certificates::ALGORITHMS),
            built_in("PKCS-1", keys::RSA),
            built_in("AsymmetricKeyPackageModuleV1", keys::PRIVATE),
            built_in("ECPrivateKey", keys::CURVES),
            built_in("PKCS-10", keys::REQUESTS),
            built_in("CryptographicMessageSyntax2004", messages::CMS),
            built_in("Messages-With-Contents", messages::CONTENTS),
            built_in("PKCS-12", messages::STORES),
            built_in("OCSP-2013-88", messages::STATUS),
            built_in("KerberosV5Spec2", kerberos::KERBEROS),
            built_in("SNMPv2-PDU", snmp::PDUS),
            built_in("COMMUNITY-BASED-SNMPv2", snmp::COMMUNITIES),
            built_in("RFC1157-SNMP", snmp::FIRST),
            built_in("SNMPv3MessageSyntax", snmp::THIRD),
            built_in("Lightweight-Directory-Access-Protocol-V3", ldap::LDAP),
        ],
    )?;
    Ok(sources)
}
