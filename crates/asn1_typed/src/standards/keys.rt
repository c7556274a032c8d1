//! Keys (RFC 8017, RFC 5958, RFC 5915) and requests for certificates (RFC 2986).

/// PKCS-1 (RFC 8017, A). A default that is a sequence is written as OPTIONAL.
pub static RSA: &str = "
PKCS-1 DEFINITIONS EXPLICIT TAGS ::= BEGIN
IMPORTS AlgorithmIdentifier FROM PKIX1Explicit88;

RSAPublicKey ::= SEQUENCE { modulus INTEGER, publicExponent INTEGER }
RSAPrivateKey ::= SEQUENCE {
    version Version,
    modulus INTEGER,
    publicExponent INTEGER,
    privateExponent INTEGER,
    prime1 INTEGER,
    prime2 INTEGER,
    exponent1 INTEGER,
    exponent2 INTEGER,
    coefficient INTEGER,
    otherPrimeInfos OtherPrimeInfos OPTIONAL }
Version ::= INTEGER { two-prime(0), multi(1) }
OtherPrimeInfos ::= SEQUENCE SIZE (1..MAX) OF OtherPrimeInfo
OtherPrimeInfo ::= SEQUENCE { prime INTEGER, exponent INTEGER, coefficient INTEGER }
RSAES-OAEP-params ::= SEQUENCE {
    hashAlgorithm [0] HashAlgorithm OPTIONAL,
    maskGenAlgorithm [1] MaskGenAlgorithm OPTIONAL,
    pSourceAlgorithm [2] PSourceAlgorithm OPTIONAL }
RSASSA-PSS-params ::= SEQUENCE {
    hashAlgorithm [0] HashAlgorithm OPTIONAL,
    maskGenAlgorithm [1] MaskGenAlgorithm OPTIONAL,
    saltLength [2] INTEGER DEFAULT 20,
    trailerField [3] TrailerField DEFAULT trailerFieldBC }
HashAlgorithm ::= AlgorithmIdentifier
MaskGenAlgorithm ::= AlgorithmIdentifier
PSourceAlgorithm ::= AlgorithmIdentifier
TrailerField ::= INTEGER { trailerFieldBC(1) }
DigestInfo ::= SEQUENCE { digestAlgorithm DigestAlgorithm, digest OCTET STRING }
DigestAlgorithm ::= AlgorithmIdentifier

END
";

/// AsymmetricKeyPackageModuleV1 (RFC 5958), which PKCS #8 became.
pub static PRIVATE: &str = "
AsymmetricKeyPackageModuleV1 DEFINITIONS IMPLICIT TAGS ::= BEGIN
IMPORTS AlgorithmIdentifier, Attribute FROM PKIX1Explicit88;

AsymmetricKeyPackage ::= SEQUENCE SIZE (1..MAX) OF OneAsymmetricKey
OneAsymmetricKey ::= SEQUENCE {
    version Version,
    privateKeyAlgorithm PrivateKeyAlgorithmIdentifier,
    privateKey PrivateKey,
    attributes [0] Attributes OPTIONAL,
    ...,
    [[ 2: publicKey [1] PublicKey OPTIONAL ]],
    ... }
PrivateKeyInfo ::= OneAsymmetricKey
Version ::= INTEGER { v1(0), v2(1) }
PrivateKeyAlgorithmIdentifier ::= AlgorithmIdentifier
PrivateKey ::= OCTET STRING
PublicKey ::= BIT STRING
Attributes ::= SET OF Attribute
EncryptedPrivateKeyInfo ::= SEQUENCE {
    encryptionAlgorithm EncryptionAlgorithmIdentifier,
    encryptedData EncryptedData }
EncryptionAlgorithmIdentifier ::= AlgorithmIdentifier
EncryptedData ::= OCTET STRING

END
";

/// ECPrivateKey (RFC 5915). The parameters have all forms of SEC 1.
pub static CURVES: &str = "
ECPrivateKey DEFINITIONS EXPLICIT TAGS ::= BEGIN
IMPORTS FieldID, Curve, ECPoint FROM PKIX1Algorithms88;

ECPrivateKey ::= SEQUENCE {
    version INTEGER { ecPrivkeyVer1(1) } (ecPrivkeyVer1),
    privateKey OCTET STRING,
    parameters [0] ECParameters OPTIONAL,
    publicKey [1] BIT STRING OPTIONAL }
ECParameters ::= CHOICE {
    namedCurve OBJECT IDENTIFIER,
    implicitCurve NULL,
    specifiedCurve SpecifiedECDomain }
SpecifiedECDomain ::= SEQUENCE {
    version INTEGER,
    fieldID FieldID,
    curve Curve,
    base ECPoint,
    order INTEGER,
    cofactor INTEGER OPTIONAL,
    ... }

END
";

/// PKCS-10 (RFC 2986, A).
pub static REQUESTS: &str = "
PKCS-10 DEFINITIONS IMPLICIT TAGS ::= BEGIN
IMPORTS AlgorithmIdentifier, Attribute, Name, SubjectPublicKeyInfo FROM PKIX1Explicit88;

CertificationRequest ::= SEQUENCE {
    certificationRequestInfo CertificationRequestInfo,
    signatureAlgorithm AlgorithmIdentifier,
    signature BIT STRING }
CertificationRequestInfo ::= SEQUENCE {
    version INTEGER { v1(0) },
    subject Name,
    subjectPKInfo SubjectPublicKeyInfo,
    attributes [0] Attributes }
Attributes ::= SET OF Attribute

END
";
