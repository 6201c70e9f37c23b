use elements::Form;

// A component is required ("?" is missing), optional ("?"), or has a default.
#[derive(Clone, Copy)]
pub enum Need {
    Required,
    Optional,
    Default(u32),
}

// A component of a sequence: its tag, its record's kind, its form, whether it must be there, and its bounds. What they bound is what the form
// tells: a number, how many bytes octets are, how many characters a text is.
#[derive(Clone, Copy)]
pub struct Row {
    pub tag: u8,
    pub kind: u16,
    pub form: Form,
    pub need: Need,
    pub low: i32,
    pub high: i32,
}

// The sequences whose components stand in tables.
#[derive(Clone, Copy)]
pub enum Sequence {
    Info,
    Common,
    Rule,
    Key,
    CertificateAttributes,
    Authentication,
    PrivateKeyAttributes,
    PasswordAttributes,
    Path,
    Template,
    Discretionary,
    OdfPath,
    InfoPath,
}

// What the objects of an EF.OD entry are.
#[derive(Clone, Copy)]
pub enum Class {
    Keys,
    Certificates,
    Containers,
    Authentications,
}

// What stands in an object's type element.
#[derive(Clone, Copy)]
pub enum ObjectType {
    PrivateKey,
    Certificate,
    Password,
    Sealed,
}

// What a condition is.
#[derive(Clone, Copy)]
pub enum Sort {
    Always,
    Identifier,
    Not,
    And,
    Or,
    Other,
}
