ghost use Rattle.std.specs.Prelude.{◌≡◌, ◌<◌, length, get_or};
ghost use Rattle.rules.specs.Lines.{row_of_line, lines_of};
ghost use Rattle.rules.specs.Tables.{rows_of, rest_of, no_row};

use crate::table::{Need, Row, Sequence};
use elements::Form;

// A row of a table, in the order of the definitions: tag, kind, form, need, low, high.
#[derive(Clone, Copy)]
struct Line(u8, u16, Form, Need, i32, i32);

// CIAInfo
const INFO: [Line; 5] = [
    // version
    Line(0x02, 0x0101, Form::Integer, Need::Required, 0, 255),
    // serialNumber
    Line(0x04, 0x0102, Form::Octets, Need::Optional, 0, 255),
    // manufacturerID
    Line(0x0c, 0x0103, Form::Text, Need::Optional, 0, 255),
    // label
    Line(0x80, 0x0104, Form::Text, Need::Optional, 0, 255),
    // cardflags
    Line(0x03, 0x0105, Form::Bits, Need::Required, 0, 0),
];

// CommonObjectAttributes
const COMMON: [Line; 4] = [
    // label
    Line(0x0c, 0x0121, Form::Text, Need::Optional, 0, 255),
    // flags
    Line(0x03, 0x0122, Form::Bits, Need::Optional, 0, 0),
    // authId
    Line(0x04, 0x0123, Form::Octets, Need::Optional, 0, 255),
    // userConsent
    Line(0x02, 0x0124, Form::Integer, Need::Optional, 1, 32767),
];

// AccessControlRule
const RULE: [Line; 1] = [
    // accessMode
    Line(0x03, 0x0125, Form::Bits, Need::Required, 0, 0),
];

// CommonKeyAttributes
const KEY: [Line; 7] = [
    // iD
    Line(0x04, 0x0130, Form::Octets, Need::Required, 0, 255),
    // usage
    Line(0x03, 0x0131, Form::Bits, Need::Required, 0, 0),
    // native
    Line(0x01, 0x0132, Form::Boolean, Need::Default(1), 0, 0),
    // accessFlags
    Line(0x03, 0x0133, Form::Bits, Need::Optional, 0, 0),
    // keyReference
    Line(0x02, 0x0134, Form::Integer, Need::Optional, -128, 255),
    // startDate
    Line(0x18, 0x0135, Form::Time, Need::Optional, 0, 0),
    // endDate
    Line(0x80, 0x0136, Form::Time, Need::Optional, 0, 0),
];

// CommonCertificateAttributes
const CERTIFICATE: [Line; 2] = [
    // iD
    Line(0x04, 0x0140, Form::Octets, Need::Required, 0, 255),
    // authority
    Line(0x01, 0x0141, Form::Boolean, Need::Default(0), 0, 0),
];

// CommonAuthenticationObjectAttributes
const AUTHENTICATION: [Line; 3] = [
    // authId
    Line(0x04, 0x0150, Form::Octets, Need::Optional, 0, 255),
    // authReference
    Line(0x02, 0x0151, Form::Integer, Need::Optional, 0, 255),
    // seIdentifier
    Line(0x80, 0x0152, Form::Integer, Need::Optional, 0, 255),
];

// PrivateRSAKeyAttributes
const PRIVATE_KEY: [Line; 1] = [
    // modulusLength
    Line(0x02, 0x0183, Form::Integer, Need::Required, 0, 65535),
];

// PasswordAttributes
const PASSWORD: [Line; 8] = [
    // pwdFlags
    Line(0x03, 0x0190, Form::Bits, Need::Required, 0, 0),
    // pwdType
    Line(0x0a, 0x0191, Form::Integer, Need::Required, 0, 4),
    // minLength
    Line(0x02, 0x0192, Form::Integer, Need::Required, 4, 8),
    // storedLength
    Line(0x02, 0x0193, Form::Integer, Need::Required, 0, 64),
    // maxLength
    Line(0x02, 0x0194, Form::Integer, Need::Optional, 0, 65535),
    // pwdReference
    Line(0x80, 0x0195, Form::Integer, Need::Default(0), 0, 255),
    // padChar
    Line(0x04, 0x0196, Form::Octets, Need::Optional, 1, 1),
    // lastPasswordChange
    Line(0x18, 0x0197, Form::Time, Need::Optional, 0, 0),
];

// Path
const PATH: [Line; 3] = [
    // efidOrPath
    Line(0x04, 0x0180, Form::Octets, Need::Required, 0, 64),
    // index
    Line(0x02, 0x0181, Form::Integer, Need::Optional, 0, 65535),
    // length
    Line(0x80, 0x0182, Form::Integer, Need::Optional, 0, 65535),
];

// ApplicationTemplate
const TEMPLATE: [Line; 3] = [
    // application identifier
    Line(0x4f, 0x0202, Form::Octets, Need::Required, 1, 16),
    // application label
    Line(0x50, 0x0203, Form::Text, Need::Optional, 0, 255),
    // path
    Line(0x51, 0x0204, Form::Octets, Need::Optional, 0, 64),
];

// CIODDO
const DISCRETIONARY: [Line; 1] = [
    // aid
    Line(0x4f, 0x020d, Form::Octets, Need::Optional, 1, 16),
];

// odf_path
const ODF_PATH: [Line; 3] = [
    // efidOrPath
    Line(0x04, 0x0207, Form::Octets, Need::Required, 0, 64),
    // index
    Line(0x02, 0x0208, Form::Integer, Need::Optional, 0, 65535),
    // length
    Line(0x80, 0x0209, Form::Integer, Need::Optional, 0, 65535),
];

// ciaInfoPath
const INFO_PATH: [Line; 3] = [
    // efidOrPath
    Line(0x04, 0x020a, Form::Octets, Need::Required, 0, 64),
    // index
    Line(0x02, 0x020b, Form::Integer, Need::Optional, 0, 65535),
    // length
    Line(0x80, 0x020c, Form::Integer, Need::Optional, 0, 65535),
];

impl From<Line> for Row {
    ghost from_gives = { λ l r. r ≡ row_of_line l };

    fn from(l: Line) -> Row {
        let Line(tag, kind, form, need, low, high) = l;
        Row {
            tag,
            kind,
            form,
            need,
            low,
            high,
        }
    }
}

// The lines of a sequence.
fn lines(q: Sequence) -> &'static [Line]
    ensures { result.now ≡ lines_of q }
{
    match q {
        Sequence::Info => &INFO,
        Sequence::Common => &COMMON,
        Sequence::Rule => &RULE,
        Sequence::Key => &KEY,
        Sequence::CertificateAttributes => &CERTIFICATE,
        Sequence::Authentication => &AUTHENTICATION,
        Sequence::PrivateKeyAttributes => &PRIVATE_KEY,
        Sequence::PasswordAttributes => &PASSWORD,
        Sequence::Path => &PATH,
        Sequence::Template => &TEMPLATE,
        Sequence::Discretionary => &DISCRETIONARY,
        Sequence::OdfPath => &ODF_PATH,
        Sequence::InfoPath => &INFO_PATH,
    }
}

// A component of a sequence.
pub fn row_of(q: Sequence, i: usize) -> Row
    requires { i < length (rows_of q) }
    ensures { result ≡ get_or (rows_of q) i no_row }
{
    Row::from(lines(q)[i])
}

// How many components a sequence has.
pub fn count_of(q: Sequence) -> usize
    ensures { result ≡ length (rows_of q) }
{
    lines(q).len()
}

// The kind that a sequence's rest is kept as; a Path has none.
pub fn rest_of(q: Sequence) -> u16
    ensures { result ≡ rest_of q }
{
    match q {
        Sequence::Info => 0x0106,
        Sequence::Common => 0x012f,
        Sequence::Rule => 0x012c,
        Sequence::Key => 0x013f,
        Sequence::CertificateAttributes => 0x014f,
        Sequence::Authentication => 0x015f,
        Sequence::PrivateKeyAttributes => 0x018f,
        Sequence::PasswordAttributes => 0x019f,
        Sequence::Path => 0,
        Sequence::Template => 0x0210,
        Sequence::Discretionary => 0x020f,
        Sequence::OdfPath => 0,
        Sequence::InfoPath => 0,
    }
}
