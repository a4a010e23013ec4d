// Why requests aren't served.
use crate::states::KeyState;
use kms_names::{Action, Principal, Text};

/// What a name was looked up for and not found.
#[derive(Clone, Copy)]
pub enum Missing {
    Key,
    Alias,
    Grant,
}

/// What is counted and stands at its limit.
#[derive(Clone, Copy)]
pub enum Limit {
    Keys,
    /// The grants of a key.
    KeyGrants,
    /// The grants of all keys.
    Grants,
    Aliases,
    /// The rotations on demand of a key.
    Rotations,
    /// The tags of a key.
    Tags,
    /// The initialization vectors of a pass.
    Ivs,
    /// The words of a pass's random stream.
    Draws,
    /// The entries of the history.
    Entries,
    /// The bytes of all entries.
    Bytes,
}

/// A field that is read and not supported, or not with its value.
#[derive(Clone, Copy)]
pub enum Unsupported {
    KeyUsage,
    CustomerMasterKeySpec,
    KeySpec,
    Origin,
    CustomKeyStoreId,
    MultiRegion,
    XksKeyId,
    Recipient,
    /// The reference to a key of a kind that the operation isn't for.
    KeyId,
}

/// What is wrong with a key policy. A path is a JSON pointer (RFC 6901) into it.
#[derive(Drop)]
pub enum PolicyFlaw {
    /// It has too many bytes.
    TooLong,
    /// It isn't JSON.
    NotJson,
    /// What stands at this path isn't what a policy has there.
    BadShape(Text),
    /// What stands at this path isn't supported.
    Unsupported(Text),
    /// The caller couldn't put another policy after it.
    Lockout,
}

/// Why a request isn't served: one variant an exception.
#[derive(Drop)]
pub enum Refusal {
    /// MissingAuthenticationTokenException.
    MissingAuthentication,
    /// IncompleteSignatureException.
    IncompleteSignature,
    /// UnrecognizedClientException.
    UnrecognizedClient,
    /// RequestExpired.
    RequestExpired,
    /// InvalidSignatureException.
    InvalidSignature,
    /// UnknownOperationException.
    UnknownOperation,
    /// SerializationException.
    Serialization,
    /// ValidationException, with the name of the field.
    Validation(Text),
    /// InvalidAliasNameException.
    InvalidAliasName,
    /// DependencyTimeoutException: the history has so many entries, and more were asked for.
    DependencyTimeout {
        entries: u64,
        wanted: u64,
    },
    /// NotFoundException.
    NotFound(Missing),
    /// InvalidArnException.
    InvalidArn,
    /// InvalidGrantIdException.
    InvalidGrantId,
    /// InvalidCiphertextException.
    InvalidCiphertext,
    /// IncorrectKeyException.
    IncorrectKey,
    /// AccessDeniedException: who asked for which action on which resource.
    AccessDenied {
        caller: Principal,
        action: Action,
        resource: Text,
    },
    /// InvalidGrantTokenException.
    InvalidGrantToken,
    /// DisabledException, with the ARN of the key that is disabled.
    Disabled(Text),
    /// KMSInvalidStateException: the ARN of a key, and its state.
    InvalidState {
        arn: Text,
        state: KeyState,
    },
    /// UnsupportedOperationException, with the field that isn't supported.
    UnsupportedOperation(Unsupported),
    /// InvalidKeyUsageException.
    InvalidKeyUsage,
    /// KMSInvalidMacException.
    InvalidMac,
    /// AlreadyExistsException, of an alias.
    AlreadyExists,
    /// InvalidMarkerException.
    InvalidMarker,
    /// TagException.
    InvalidTags,
    /// MalformedPolicyDocumentException, with what is wrong.
    MalformedPolicy(PolicyFlaw),
    /// LimitExceededException.
    LimitExceeded(Limit),
    /// DryRunOperationException.
    DryRun,
}

impl Refusal {
    ghost use Rattle.std.specs.Prelude.{◌≡◌};
    ghost use Rattle.kms_json.specs.Exceptions.{exception_name, refusal_status};

    /// The HTTP status (RFC 9110, section 15). It takes no memory.
    pub fn status(&self) -> u16
        ensures { result ≡ refusal_status self.now }
    {
        match self {
            Refusal::DependencyTimeout { .. } => 503,
            Refusal::DryRun => 412,
            _ => 400,
        }
    }

    /// The name of the exception (AWS KMS API Reference, "Common Errors" and the errors of each action). It takes no memory.
    pub fn exception(&self) -> &'static str
        ensures { result.now ≡ exception_name self.now }
    {
        match self {
            Refusal::MissingAuthentication => "MissingAuthenticationTokenException",
            Refusal::IncompleteSignature => "IncompleteSignatureException",
            Refusal::UnrecognizedClient => "UnrecognizedClientException",
            Refusal::RequestExpired => "RequestExpired",
            Refusal::InvalidSignature => "InvalidSignatureException",
            Refusal::UnknownOperation => "UnknownOperationException",
            Refusal::Serialization => "SerializationException",
            Refusal::Validation(_) => "ValidationException",
            Refusal::InvalidAliasName => "InvalidAliasNameException",
            Refusal::DependencyTimeout { .. } => "DependencyTimeoutException",
            Refusal::NotFound(_) => "NotFoundException",
            Refusal::InvalidArn => "InvalidArnException",
            Refusal::InvalidGrantId => "InvalidGrantIdException",
            Refusal::InvalidCiphertext => "InvalidCiphertextException",
            Refusal::IncorrectKey => "IncorrectKeyException",
            Refusal::AccessDenied { .. } => "AccessDeniedException",
            Refusal::InvalidGrantToken => "InvalidGrantTokenException",
            Refusal::Disabled(_) => "DisabledException",
            Refusal::InvalidState { .. } => "KMSInvalidStateException",
            Refusal::UnsupportedOperation(_) => "UnsupportedOperationException",
            Refusal::InvalidKeyUsage => "InvalidKeyUsageException",
            Refusal::InvalidMac => "KMSInvalidMacException",
            Refusal::AlreadyExists => "AlreadyExistsException",
            Refusal::InvalidMarker => "InvalidMarkerException",
            Refusal::InvalidTags => "TagException",
            Refusal::MalformedPolicy(_) => "MalformedPolicyDocumentException",
            Refusal::LimitExceeded(_) => "LimitExceededException",
            Refusal::DryRun => "DryRunOperationException",
        }
    }
}
