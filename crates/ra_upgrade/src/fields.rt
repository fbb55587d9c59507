//! Header fields, by their names.
ghost use Rattle.std.specs.Prelude.{◌≡◌, map, option_map, All, length};
ghost use Rattle.httparse.specs.Spans.{IsHeaderWithin, header_bytes};
ghost use Rattle.ra_upgrade.specs.Fields as spec;

use httparse::spans::HeaderSpan;

/// Whether the texts are equal in any ASCII case.
pub fn same_name(a: &[u8], b: &[u8]) -> bool
    ensures { result ≡ spec.same_name a.now b.now }
{
    a.eq_ignore_ascii_case(b)
}

/// The value of the first header field of that name.
pub fn first_value_of<'b>(buf: &'b [u8], headers: &[HeaderSpan], name: &[u8]) -> Option<&'b [u8]>
    requires { All (IsHeaderWithin (length buf.now)) headers.now }
    ensures { option_map (λ value. value.now) result ≡ spec.first_value name.now (map (header_bytes buf.now) headers.now) }
{
    for header in headers {
        if same_name(name, header.name.of(buf)) {
            return Some(header.value.of(buf));
        }
    }
    None
}
