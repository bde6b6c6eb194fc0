// The namespaces of the lists.
// Written by tools/lists/make.
ghost use Rattle.std.specs.Prelude.{◌≡◌};
ghost use Rattle.file_front.specs.mirror.Spaces.{house_space, report_space};

pub(crate) fn house_space() -> [u8; 46]
    ensures { result ≡ house_space }
{
    *b"urn:iso:std:iso:20022:tech:xsd:camt.053.001.08"
}

pub(crate) fn report_space() -> [u8; 46]
    ensures { result ≡ report_space }
{
    *b"urn:iso:std:iso:20022:tech:xsd:camt.052.001.08"
}
