//! Laws of blobs of both forms. Each stands as the contract of a function that does nothing.

ghost use Rattle.blob_format.specs.Laws.{BlobsAreNamed, BlobsSayTheirForm, NamedAreBlobs, OneSpelling, OneValue, WrittenIsReadAgain};

/// The blobs of one value are the same bytes.
pub fn one_spelling()
    ensures { OneSpelling }
{}

/// One blob has one value: one form, and in form 2 one commitment.
pub fn one_value()
    ensures { OneValue }
{}

/// What `write_blob` or `write_blob_two` writes of a value, `read_blob` reads, and it gives that value.
pub fn written_is_read_again()
    ensures { WrittenIsReadAgain }
{}

/// What bytes name (`named_in`) are the key and the version of their blob, and only the bytes of a
/// blob name any. What form they say (`form_in`) is the form of their blob.
pub fn blobs_name_their_keys()
    ensures named { BlobsAreNamed }
    ensures forms { BlobsSayTheirForm }
    ensures blobs { NamedAreBlobs }
{}
