//! Types by the labels of PEM (RFC 7468).

/// The name of the built-in type whose values stand in blocks with this label.
pub fn type_of_label(label: &str) -> Option<&'static str> {
    Some(match label {
        "CERTIFICATE" | "X509 CERTIFICATE" => "Certificate",
        "X509 CRL" => "CertificateList",
        "CERTIFICATE REQUEST" | "NEW CERTIFICATE REQUEST" => "CertificationRequest",
        "PRIVATE KEY" => "PrivateKeyInfo",
        "ENCRYPTED PRIVATE KEY" => "EncryptedPrivateKeyInfo",
        "PUBLIC KEY" => "SubjectPublicKeyInfo",
        "RSA PRIVATE KEY" => "RSAPrivateKey",
        "RSA PUBLIC KEY" => "RSAPublicKey",
        "EC PRIVATE KEY" => "ECPrivateKey",
        "EC PARAMETERS" => "EcpkParameters",
        "DSA PARAMETERS" => "Dss-Parms",
        "PKCS7" | "CMS" => "ContentInfo",
        _ => return None,
    })
}
