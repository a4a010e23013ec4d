// Messages that are signed for second 1,700,000,000. Made by tools/make_server_cases.py.

/// A key is made.
pub const MAKE: &str =
    "POST / HTTP/1.1\r\nContent-Type: application/x-amz-json-1.1\r\nHost: localhost\r\nX-Amz-Date: 20231114T221320Z\r\nX-Amz-Target: TrentService.CreateKey\r\nContent-Length: 2\r\nAuthorization: AWS4-HMAC-SHA256 Credential=AKIDEXAMPLE/20231114/us-east-1/kms/aws4_request, SignedHeaders=content-type;host;x-amz-date;x-amz-target, Signature=e70f7b807a807fcf422dc13b84b1dfb16f4b930094d8c9710d5f4dc0d39ea53d\r\n\r\n{}";

/// The first key is described, where there is one entry.
pub const LOOK: &str =
    "POST / HTTP/1.1\r\nContent-Type: application/x-amz-json-1.1\r\nHost: localhost\r\nX-Amz-Date: 20231114T221320Z\r\nX-Amz-Target: TrentService.DescribeKey\r\nX-Kms-After: 1\r\nContent-Length: 48\r\nAuthorization: AWS4-HMAC-SHA256 Credential=AKIDEXAMPLE/20231114/us-east-1/kms/aws4_request, SignedHeaders=content-type;host;x-amz-date;x-amz-target;x-kms-after, Signature=24da35f7e54e19237b6fdfea998e9a321bfbcff95e2732328b68ca614a508caa\r\n\r\n{\"KeyId\":\"10284733-057c-2825-aeb4-000000000000\"}";

/// A text that is sealed under the first key is opened.
pub const OPEN: &str =
    "POST / HTTP/1.1\r\nContent-Type: application/x-amz-json-1.1\r\nHost: localhost\r\nX-Amz-Date: 20231114T221320Z\r\nX-Amz-Target: TrentService.Decrypt\r\nContent-Length: 137\r\nAuthorization: AWS4-HMAC-SHA256 Credential=AKIDEXAMPLE/20231114/us-east-1/kms/aws4_request, SignedHeaders=content-type;host;x-amz-date;x-amz-target, Signature=66f1a7686c2fef30d69620faf06fc0cc2a33d3fa7fc8b38def21bdebc4d439cf\r\n\r\n{\"CiphertextBlob\":\"AhAoRzMFfCglrrQAAAAAAAAAAAABAAAAAQAJAAAAAAAAuIv/bHGBVtzsYI3a0H0dAEAb2wPiqPPQvVEXJuZfh40WSisLuqy7NEwUBQXaRfx9kM1b4b0=\"}";

/// The first key is to be rotated each 90 days.
pub const TURN: &str =
    "POST / HTTP/1.1\r\nContent-Type: application/x-amz-json-1.1\r\nHost: localhost\r\nX-Amz-Date: 20231114T221320Z\r\nX-Amz-Target: TrentService.EnableKeyRotation\r\nContent-Length: 74\r\nAuthorization: AWS4-HMAC-SHA256 Credential=AKIDEXAMPLE/20231114/us-east-1/kms/aws4_request, SignedHeaders=content-type;host;x-amz-date;x-amz-target, Signature=8ba1d24fc7d005a684cb1ef8395e830bf59fcf5f2e76e5174ed94f84fbf73d05\r\n\r\n{\"KeyId\":\"10284733-057c-2825-aeb4-000000000000\",\"RotationPeriodInDays\":90}";

/// All keys are listed.
pub const LIST: &str =
    "POST / HTTP/1.1\r\nContent-Type: application/x-amz-json-1.1\r\nHost: localhost\r\nX-Amz-Date: 20231114T221320Z\r\nX-Amz-Target: TrentService.ListKeys\r\nContent-Length: 2\r\nAuthorization: AWS4-HMAC-SHA256 Credential=AKIDEXAMPLE/20231114/us-east-1/kms/aws4_request, SignedHeaders=content-type;host;x-amz-date;x-amz-target, Signature=b67eb2b781a13226fb5a7d158f0ab441fcf823be94bb25f8cb4287bda0b91995\r\n\r\n{}";

/// An operation that isn't there.
pub const NOTHING: &str =
    "POST / HTTP/1.1\r\nContent-Type: application/x-amz-json-1.1\r\nHost: localhost\r\nX-Amz-Date: 20231114T221320Z\r\nX-Amz-Target: TrentService.Nothing\r\nContent-Length: 2\r\nAuthorization: AWS4-HMAC-SHA256 Credential=AKIDEXAMPLE/20231114/us-east-1/kms/aws4_request, SignedHeaders=content-type;host;x-amz-date;x-amz-target, Signature=06779d5271a7c6d13d64086e54270dc3724d6db4c80ee29a273b18d2eb0c7d0d\r\n\r\n{}";
