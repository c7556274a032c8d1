//! Names of common object identifiers, as the modules of their standards spell them: a table for the arcs below each
//! arc.

/// Attributes of RFC 4519: 0.9.2342.19200300.100.1.
const PILOT_ATTRIBUTE: [(u8, &str); 3] = [
    (1, "userid"),
    (3, "rfc822Mailbox"),
    (25, "domainComponent"),
];

/// Algorithms of ANSI X9.57: 1.2.840.10040.4.
const X9_57: [(u8, &str); 2] = [(1, "id-dsa"), (3, "id-dsa-with-sha1")];

/// Signatures of ANSI X9.62 with SHA-2: 1.2.840.10045.4.3.
const ECDSA_SHA2: [(u8, &str); 4] = [
    (1, "ecdsa-with-SHA224"),
    (2, "ecdsa-with-SHA256"),
    (3, "ecdsa-with-SHA384"),
    (4, "ecdsa-with-SHA512"),
];

/// PKCS #1 (RFC 8017): 1.2.840.113549.1.1.
const PKCS_1: [(u8, &str); 11] = [
    (1, "rsaEncryption"),
    (2, "md2WithRSAEncryption"),
    (4, "md5WithRSAEncryption"),
    (5, "sha1WithRSAEncryption"),
    (7, "id-RSAES-OAEP"),
    (8, "id-mgf1"),
    (10, "id-RSASSA-PSS"),
    (11, "sha256WithRSAEncryption"),
    (12, "sha384WithRSAEncryption"),
    (13, "sha512WithRSAEncryption"),
    (14, "sha224WithRSAEncryption"),
];

/// PKCS #5 (RFC 8018): 1.2.840.113549.1.5.
const PKCS_5: [(u8, &str); 4] = [
    (3, "pbeWithMD5AndDES-CBC"),
    (12, "id-PBKDF2"),
    (13, "id-PBES2"),
    (14, "id-PBMAC1"),
];

/// PKCS #7 (RFC 5652): 1.2.840.113549.1.7.
const PKCS_7: [(u8, &str); 5] = [
    (1, "id-data"),
    (2, "id-signedData"),
    (3, "id-envelopedData"),
    (5, "id-digestedData"),
    (6, "id-encryptedData"),
];

/// PKCS #9 (RFC 2985): 1.2.840.113549.1.9.
const PKCS_9: [(u8, &str); 12] = [
    (1, "emailAddress"),
    (2, "unstructuredName"),
    (3, "contentType"),
    (4, "messageDigest"),
    (5, "signingTime"),
    (6, "countersignature"),
    (7, "challengePassword"),
    (8, "unstructuredAddress"),
    (14, "extensionRequest"),
    (15, "smimeCapabilities"),
    (20, "friendlyName"),
    (21, "localKeyId"),
];

/// Attributes of S/MIME (RFC 5035): 1.2.840.113549.1.9.16.2.
const SMIME_ATTRIBUTE: [(u8, &str); 3] = [
    (12, "id-aa-signingCertificate"),
    (14, "id-aa-timeStampToken"),
    (47, "id-aa-signingCertificateV2"),
];

/// Encryption of PKCS #12 (RFC 7292): 1.2.840.113549.1.12.1.
const PKCS_12_ENCRYPTION: [(u8, &str); 2] = [
    (3, "pbeWithSHAAnd3-KeyTripleDES-CBC"),
    (6, "pbeWithSHAAnd40BitRC2-CBC"),
];

/// Bags of PKCS #12 (RFC 7292): 1.2.840.113549.1.12.10.1.
const PKCS_12_BAG: [(u8, &str); 6] = [
    (1, "keyBag"),
    (2, "pkcs8ShroudedKeyBag"),
    (3, "certBag"),
    (4, "crlBag"),
    (5, "secretBag"),
    (6, "safeContentsBag"),
];

/// Digests and codes of RSA: 1.2.840.113549.2.
const RSA_DIGEST: [(u8, &str); 7] = [
    (2, "md2"),
    (5, "md5"),
    (7, "hmacWithSHA1"),
    (8, "hmacWithSHA224"),
    (9, "hmacWithSHA256"),
    (10, "hmacWithSHA384"),
    (11, "hmacWithSHA512"),
];

/// Ciphers of RSA: 1.2.840.113549.3.
const RSA_CIPHER: [(u8, &str); 3] = [(2, "rc2CBC"), (4, "rc4"), (7, "des-EDE3-CBC")];

/// Signed code of Microsoft: 1.3.6.1.4.1.311.2.1.
const MICROSOFT_CODE: [(u8, &str); 5] = [
    (4, "spcIndirectDataContext"),
    (14, "certExtensions"),
    (15, "spcPEImageData"),
    (21, "individualCodeSigning"),
    (22, "commercialCodeSigning"),
];

/// Certificates of Microsoft: 1.3.6.1.4.1.311.20.2.
const MICROSOFT_CERTIFICATE: [(u8, &str); 2] = [(2, "smartcardLogon"), (3, "userPrincipalName")];

/// Enrolment of Microsoft: 1.3.6.1.4.1.311.21.
const MICROSOFT_ENROLMENT: [(u8, &str); 3] = [
    (1, "cAKeyCertIndexPair"),
    (7, "certificateTemplate"),
    (10, "applicationCertPolicies"),
];

/// Extensions of PKIX (RFC 5280): 1.3.6.1.5.5.7.1.
const PKIX_EXTENSION: [(u8, &str); 6] = [
    (1, "id-pe-authorityInfoAccess"),
    (2, "id-pe-biometricInfo"),
    (3, "id-pe-qcStatements"),
    (11, "id-pe-subjectInfoAccess"),
    (14, "id-pe-proxyCertInfo"),
    (24, "id-pe-tlsfeature"),
];

/// Purposes of keys (RFC 5280): 1.3.6.1.5.5.7.3.
const KEY_PURPOSE: [(u8, &str); 6] = [
    (1, "id-kp-serverAuth"),
    (2, "id-kp-clientAuth"),
    (3, "id-kp-codeSigning"),
    (4, "id-kp-emailProtection"),
    (8, "id-kp-timeStamping"),
    (9, "id-kp-OCSPSigning"),
];

/// Methods of access (RFC 5280): 1.3.6.1.5.5.7.48.
const ACCESS_METHOD: [(u8, &str); 4] = [
    (1, "id-ad-ocsp"),
    (2, "id-ad-caIssuers"),
    (3, "id-ad-timeStamping"),
    (5, "id-ad-caRepository"),
];

/// OCSP (RFC 6960): 1.3.6.1.5.5.7.48.1.
const OCSP: [(u8, &str); 3] = [
    (1, "id-pkix-ocsp-basic"),
    (2, "id-pkix-ocsp-nonce"),
    (5, "id-pkix-ocsp-nocheck"),
];

/// Algorithms of OIW: 1.3.14.3.2.
const OIW: [(u8, &str); 3] = [(7, "desCBC"), (26, "id-sha1"), (29, "sha1WithRSA")];

/// Curves of Brainpool (RFC 5639): 1.3.36.3.3.2.8.1.1.
const BRAINPOOL_CURVE: [(u8, &str); 3] = [
    (7, "brainpoolP256r1"),
    (11, "brainpoolP384r1"),
    (13, "brainpoolP512r1"),
];

/// Curves of RFC 8410: 1.3.101.
const EDWARDS_CURVE: [(u8, &str); 4] = [
    (110, "id-X25519"),
    (111, "id-X448"),
    (112, "id-Ed25519"),
    (113, "id-Ed448"),
];

/// Curves of SECG: 1.3.132.0.
const SECG_CURVE: [(u8, &str); 4] = [
    (10, "secp256k1"),
    (33, "secp224r1"),
    (34, "secp384r1"),
    (35, "secp521r1"),
];

/// Attributes of X.520: 2.5.4.
const ATTRIBUTE: [(u8, &str); 21] = [
    (3, "commonName"),
    (4, "surname"),
    (5, "serialNumber"),
    (6, "countryName"),
    (7, "localityName"),
    (8, "stateOrProvinceName"),
    (9, "streetAddress"),
    (10, "organizationName"),
    (11, "organizationalUnitName"),
    (12, "title"),
    (13, "description"),
    (15, "businessCategory"),
    (17, "postalCode"),
    (20, "telephoneNumber"),
    (41, "name"),
    (42, "givenName"),
    (43, "initials"),
    (44, "generationQualifier"),
    (46, "dnQualifier"),
    (65, "pseudonym"),
    (97, "organizationIdentifier"),
];

/// Extensions of X.509: 2.5.29.
const EXTENSION: [(u8, &str); 23] = [
    (9, "id-ce-subjectDirectoryAttributes"),
    (14, "id-ce-subjectKeyIdentifier"),
    (15, "id-ce-keyUsage"),
    (16, "id-ce-privateKeyUsagePeriod"),
    (17, "id-ce-subjectAltName"),
    (18, "id-ce-issuerAltName"),
    (19, "id-ce-basicConstraints"),
    (20, "id-ce-cRLNumber"),
    (21, "id-ce-cRLReasons"),
    (23, "id-ce-holdInstructionCode"),
    (24, "id-ce-invalidityDate"),
    (27, "id-ce-deltaCRLIndicator"),
    (28, "id-ce-issuingDistributionPoint"),
    (29, "id-ce-certificateIssuer"),
    (30, "id-ce-nameConstraints"),
    (31, "id-ce-cRLDistributionPoints"),
    (32, "id-ce-certificatePolicies"),
    (33, "id-ce-policyMappings"),
    (35, "id-ce-authorityKeyIdentifier"),
    (36, "id-ce-policyConstraints"),
    (37, "id-ce-extKeyUsage"),
    (46, "id-ce-freshestCRL"),
    (54, "id-ce-inhibitAnyPolicy"),
];

/// AES: 2.16.840.1.101.3.4.1.
const AES: [(u8, &str); 5] = [
    (2, "id-aes128-CBC"),
    (6, "id-aes128-GCM"),
    (22, "id-aes192-CBC"),
    (42, "id-aes256-CBC"),
    (46, "id-aes256-GCM"),
];

/// SHA-2: 2.16.840.1.101.3.4.2.
const SHA2: [(u8, &str); 4] = [
    (1, "id-sha256"),
    (2, "id-sha384"),
    (3, "id-sha512"),
    (4, "id-sha224"),
];

/// Signatures of NIST: 2.16.840.1.101.3.4.3.
const NIST_SIGNATURE: [(u8, &str); 4] = [
    (2, "id-dsa-with-sha256"),
    (17, "id-ml-dsa-44"),
    (18, "id-ml-dsa-65"),
    (19, "id-ml-dsa-87"),
];

/// ML-KEM: 2.16.840.1.101.3.4.4.
const ML_KEM: [(u8, &str); 3] = [
    (1, "id-alg-ml-kem-512"),
    (2, "id-alg-ml-kem-768"),
    (3, "id-alg-ml-kem-1024"),
];

/// Policies of the CA/Browser Forum: 2.23.140.1.2.
const FORUM_POLICY: [(u8, &str); 3] = [
    (1, "domain-validated"),
    (2, "organization-validated"),
    (3, "individual-validated"),
];

/// Fields of ANSI X9.62: 1.2.840.10045.1.
const FIELD_TYPE: [(u8, &str); 1] = [(1, "prime-field")];

/// Keys of ANSI X9.62: 1.2.840.10045.2.
const ELLIPTIC_KEY: [(u8, &str); 1] = [(1, "id-ecPublicKey")];

/// Curves over prime fields of ANSI X9.62: 1.2.840.10045.3.1.
const PRIME_CURVE: [(u8, &str); 1] = [(7, "secp256r1")];

/// Contents of S/MIME (RFC 3161): 1.2.840.113549.1.9.16.1.
const SMIME_CONTENT: [(u8, &str); 1] = [(4, "id-ct-TSTInfo")];

/// Certificates of PKCS #9 (RFC 2985): 1.2.840.113549.1.9.22.
const CERTIFICATE_TYPE: [(u8, &str); 1] = [(1, "x509Certificate")];

/// Mechanisms of Kerberos (RFC 4121): 1.2.840.113554.1.2.
const MECHANISM: [(u8, &str); 1] = [(2, "krb5")];

/// Transparency of certificates (RFC 6962): 1.3.6.1.4.1.11129.2.4.
const TRANSPARENCY: [(u8, &str); 1] = [(2, "embeddedSCTList")];

/// Negotiation of mechanisms (RFC 4178): 1.3.6.1.5.5.
const NEGOTIATION: [(u8, &str); 1] = [(2, "spnego")];

/// Qualifiers of policies (RFC 5280): 1.3.6.1.5.5.7.2.
const QUALIFIER: [(u8, &str); 1] = [(1, "id-qt-cps")];

/// Policies below their extension (RFC 5280): 2.5.29.32.
const ANY_POLICY: [(u8, &str); 1] = [(0, "anyPolicy")];

/// The contents octets of each arc (X.690 8.19), and the names of what stands below it by one octet more.
pub const TABLES: [(&[u8], &[(u8, &str)]); 40] = [
    (b"\x09\x92\x26\x89\x93\xf2\x2c\x64\x01", &PILOT_ATTRIBUTE),
    (b"\x2a\x86\x48\xce\x38\x04", &X9_57),
    (b"\x2a\x86\x48\xce\x3d\x04\x03", &ECDSA_SHA2),
    (b"\x2a\x86\x48\x86\xf7\x0d\x01\x01", &PKCS_1),
    (b"\x2a\x86\x48\x86\xf7\x0d\x01\x05", &PKCS_5),
    (b"\x2a\x86\x48\x86\xf7\x0d\x01\x07", &PKCS_7),
    (b"\x2a\x86\x48\x86\xf7\x0d\x01\x09", &PKCS_9),
    (
        b"\x2a\x86\x48\x86\xf7\x0d\x01\x09\x10\x02",
        &SMIME_ATTRIBUTE,
    ),
    (b"\x2a\x86\x48\x86\xf7\x0d\x01\x0c\x01", &PKCS_12_ENCRYPTION),
    (b"\x2a\x86\x48\x86\xf7\x0d\x01\x0c\x0a\x01", &PKCS_12_BAG),
    (b"\x2a\x86\x48\x86\xf7\x0d\x02", &RSA_DIGEST),
    (b"\x2a\x86\x48\x86\xf7\x0d\x03", &RSA_CIPHER),
    (b"\x2b\x06\x01\x04\x01\x82\x37\x02\x01", &MICROSOFT_CODE),
    (
        b"\x2b\x06\x01\x04\x01\x82\x37\x14\x02",
        &MICROSOFT_CERTIFICATE,
    ),
    (b"\x2b\x06\x01\x04\x01\x82\x37\x15", &MICROSOFT_ENROLMENT),
    (b"\x2b\x06\x01\x05\x05\x07\x01", &PKIX_EXTENSION),
    (b"\x2b\x06\x01\x05\x05\x07\x03", &KEY_PURPOSE),
    (b"\x2b\x06\x01\x05\x05\x07\x30", &ACCESS_METHOD),
    (b"\x2b\x06\x01\x05\x05\x07\x30\x01", &OCSP),
    (b"\x2b\x0e\x03\x02", &OIW),
    (b"\x2b\x24\x03\x03\x02\x08\x01\x01", &BRAINPOOL_CURVE),
    (b"\x2b\x65", &EDWARDS_CURVE),
    (b"\x2b\x81\x04\x00", &SECG_CURVE),
    (b"\x55\x04", &ATTRIBUTE),
    (b"\x55\x1d", &EXTENSION),
    (b"\x60\x86\x48\x01\x65\x03\x04\x01", &AES),
    (b"\x60\x86\x48\x01\x65\x03\x04\x02", &SHA2),
    (b"\x60\x86\x48\x01\x65\x03\x04\x03", &NIST_SIGNATURE),
    (b"\x60\x86\x48\x01\x65\x03\x04\x04", &ML_KEM),
    (b"\x67\x81\x0c\x01\x02", &FORUM_POLICY),
    (b"\x2a\x86\x48\xce\x3d\x01", &FIELD_TYPE),
    (b"\x2a\x86\x48\xce\x3d\x02", &ELLIPTIC_KEY),
    (b"\x2a\x86\x48\xce\x3d\x03\x01", &PRIME_CURVE),
    (b"\x2a\x86\x48\x86\xf7\x0d\x01\x09\x10\x01", &SMIME_CONTENT),
    (b"\x2a\x86\x48\x86\xf7\x0d\x01\x09\x16", &CERTIFICATE_TYPE),
    (b"\x2a\x86\x48\x86\xf7\x12\x01\x02", &MECHANISM),
    (b"\x2b\x06\x01\x04\x01\xd6\x79\x02\x04", &TRANSPARENCY),
    (b"\x2b\x06\x01\x05\x05", &NEGOTIATION),
    (b"\x2b\x06\x01\x05\x05\x07\x02", &QUALIFIER),
    (b"\x55\x1d\x20", &ANY_POLICY),
];
