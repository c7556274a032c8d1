//! Messages of SNMP (RFC 1157, RFC 1901, RFC 3412, RFC 3414, RFC 3416).

/// SNMPv2-PDU (RFC 3416), with the types of RFC 2578 that it needs. The value of a binding has the name `choice` here.
pub static PDUS: &str = "
SNMPv2-PDU DEFINITIONS ::= BEGIN

ObjectName ::= OBJECT IDENTIFIER
ObjectSyntax ::= CHOICE { simple SimpleSyntax, application-wide ApplicationSyntax }
SimpleSyntax ::= CHOICE {
    integer-value INTEGER (-2147483648..2147483647),
    string-value OCTET STRING (SIZE (0..65535)),
    objectID-value OBJECT IDENTIFIER }
ApplicationSyntax ::= CHOICE {
    ipAddress-value IpAddress,
    counter-value Counter32,
    timeticks-value TimeTicks,
    arbitrary-value Opaque,
    big-counter-value Counter64,
    unsigned-integer-value Unsigned32 }
Integer32 ::= INTEGER (-2147483648..2147483647)
IpAddress ::= [APPLICATION 0] IMPLICIT OCTET STRING (SIZE (4))
Counter32 ::= [APPLICATION 1] IMPLICIT INTEGER (0..4294967295)
Unsigned32 ::= [APPLICATION 2] IMPLICIT INTEGER (0..4294967295)
TimeTicks ::= [APPLICATION 3] IMPLICIT INTEGER (0..4294967295)
Opaque ::= [APPLICATION 4] IMPLICIT OCTET STRING
Counter64 ::= [APPLICATION 6] IMPLICIT INTEGER (0..18446744073709551615)

PDUs ::= CHOICE {
    get-request GetRequest-PDU,
    get-next-request GetNextRequest-PDU,
    get-bulk-request GetBulkRequest-PDU,
    response Response-PDU,
    set-request SetRequest-PDU,
    inform-request InformRequest-PDU,
    snmpV2-trap SNMPv2-Trap-PDU,
    report Report-PDU }
GetRequest-PDU ::= [0] IMPLICIT PDU
GetNextRequest-PDU ::= [1] IMPLICIT PDU
Response-PDU ::= [2] IMPLICIT PDU
SetRequest-PDU ::= [3] IMPLICIT PDU
GetBulkRequest-PDU ::= [5] IMPLICIT BulkPDU
InformRequest-PDU ::= [6] IMPLICIT PDU
SNMPv2-Trap-PDU ::= [7] IMPLICIT PDU
Report-PDU ::= [8] IMPLICIT PDU
max-bindings INTEGER ::= 2147483647
PDU ::= SEQUENCE {
    request-id INTEGER (-2147483648..2147483647),
    error-status INTEGER {
        noError(0), tooBig(1), noSuchName(2), badValue(3), readOnly(4), genErr(5), noAccess(6), wrongType(7),
        wrongLength(8), wrongEncoding(9), wrongValue(10), noCreation(11), inconsistentValue(12),
        resourceUnavailable(13), commitFailed(14), undoFailed(15), authorizationError(16), notWritable(17),
        inconsistentName(18) },
    error-index INTEGER (0..max-bindings),
    variable-bindings VarBindList }
BulkPDU ::= SEQUENCE {
    request-id INTEGER (-2147483648..2147483647),
    non-repeaters INTEGER (0..max-bindings),
    max-repetitions INTEGER (0..max-bindings),
    variable-bindings VarBindList }
VarBind ::= SEQUENCE {
    name ObjectName,
    choice CHOICE {
        value ObjectSyntax,
        unSpecified NULL,
        noSuchObject [0] IMPLICIT NULL,
        noSuchInstance [1] IMPLICIT NULL,
        endOfMibView [2] IMPLICIT NULL } }
VarBindList ::= SEQUENCE (SIZE (0..max-bindings)) OF VarBind

END
";

/// COMMUNITY-BASED-SNMPv2 (RFC 1901): messages of version 2c, of which the data are those of `PDUS`.
pub static COMMUNITIES: &str = "
COMMUNITY-BASED-SNMPv2 DEFINITIONS ::= BEGIN
IMPORTS PDUs FROM SNMPv2-PDU;

Message ::= SEQUENCE { version INTEGER { version(1) }, community OCTET STRING, data PDUs }

END
";

/// RFC1157-SNMP (RFC 1157): messages of version 1, with the types of RFC 1155 that they need.
pub static FIRST: &str = "
RFC1157-SNMP DEFINITIONS ::= BEGIN

Message ::= SEQUENCE { version INTEGER { version-1(0) }, community OCTET STRING, data PDUs }
PDUs ::= CHOICE {
    get-request GetRequest-PDU,
    get-next-request GetNextRequest-PDU,
    get-response GetResponse-PDU,
    set-request SetRequest-PDU,
    trap Trap-PDU }
GetRequest-PDU ::= [0] IMPLICIT PDU
GetNextRequest-PDU ::= [1] IMPLICIT PDU
GetResponse-PDU ::= [2] IMPLICIT PDU
SetRequest-PDU ::= [3] IMPLICIT PDU
PDU ::= SEQUENCE {
    request-id INTEGER,
    error-status INTEGER { noError(0), tooBig(1), noSuchName(2), badValue(3), readOnly(4), genErr(5) },
    error-index INTEGER,
    variable-bindings VarBindList }
Trap-PDU ::= [4] IMPLICIT SEQUENCE {
    enterprise OBJECT IDENTIFIER,
    agent-addr NetworkAddress,
    generic-trap INTEGER {
        coldStart(0), warmStart(1), linkDown(2), linkUp(3), authenticationFailure(4), egpNeighborLoss(5),
        enterpriseSpecific(6) },
    specific-trap INTEGER,
    time-stamp TimeTicks,
    variable-bindings VarBindList }
VarBind ::= SEQUENCE { name ObjectName, value ObjectSyntax }
VarBindList ::= SEQUENCE OF VarBind
ObjectName ::= OBJECT IDENTIFIER
ObjectSyntax ::= CHOICE { simple SimpleSyntax, application-wide ApplicationSyntax }
SimpleSyntax ::= CHOICE {
    number INTEGER,
    string OCTET STRING,
    object OBJECT IDENTIFIER,
    empty NULL }
ApplicationSyntax ::= CHOICE {
    address NetworkAddress,
    counter Counter,
    gauge Gauge,
    ticks TimeTicks,
    arbitrary Opaque }
NetworkAddress ::= CHOICE { internet IpAddress }
IpAddress ::= [APPLICATION 0] IMPLICIT OCTET STRING (SIZE (4))
Counter ::= [APPLICATION 1] IMPLICIT INTEGER (0..4294967295)
Gauge ::= [APPLICATION 2] IMPLICIT INTEGER (0..4294967295)
TimeTicks ::= [APPLICATION 3] IMPLICIT INTEGER (0..4294967295)
Opaque ::= [APPLICATION 4] IMPLICIT OCTET STRING

END
";

/// SNMPv3MessageSyntax (RFC 3412), of which the data are those of `PDUS`, and USMSecurityParametersSyntax (RFC 3414).
pub static THIRD: &str = "
SNMPv3MessageSyntax DEFINITIONS IMPLICIT TAGS ::= BEGIN
IMPORTS PDUs FROM SNMPv2-PDU;

SNMPv3Message ::= SEQUENCE {
    msgVersion INTEGER (0..2147483647),
    msgGlobalData HeaderData,
    msgSecurityParameters OCTET STRING,
    msgData ScopedPduData }
HeaderData ::= SEQUENCE {
    msgID INTEGER (0..2147483647),
    msgMaxSize INTEGER (484..2147483647),
    msgFlags OCTET STRING (SIZE (1)),
    msgSecurityModel INTEGER (1..2147483647) }
ScopedPduData ::= CHOICE { plaintext ScopedPDU, encryptedPDU OCTET STRING }
ScopedPDU ::= SEQUENCE { contextEngineID OCTET STRING, contextName OCTET STRING, data PDUs }

END

USMSecurityParametersSyntax DEFINITIONS IMPLICIT TAGS ::= BEGIN

UsmSecurityParameters ::= SEQUENCE {
    msgAuthoritativeEngineID OCTET STRING,
    msgAuthoritativeEngineBoots INTEGER (0..2147483647),
    msgAuthoritativeEngineTime INTEGER (0..2147483647),
    msgUserName OCTET STRING (SIZE (0..32)),
    msgAuthenticationParameters OCTET STRING,
    msgPrivacyParameters OCTET STRING }

END
";
