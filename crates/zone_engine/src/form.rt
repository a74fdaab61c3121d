ghost use Rattle.std.specs.Prelude.{◌≡◌};
ghost use Rattle.zone_engine.specs.Form.{read_as, read_as_with};

use zone_name::Name;

/// How an input is to be read.
#[derive(Clone, Copy)]
pub enum Form<'n> {
    /// A master file with its origin (RFC 1035 5).
    File(&'n Name),
    /// The octets of a zone transfer as they came over TCP, each message after its length (RFC 5936
    /// 2.2, RFC 1035 4.2.2).
    Transfer,
}

impl<'n> Form<'n> {
    /// A master file with this origin, or a transfer where there is none.
    pub fn with_origin(origin: &'n Option<Name>) -> Form<'n>
        ensures { read_as result ≡ read_as_with origin.now }
    {
        match origin {
            Some(origin) => Form::File(origin),
            None => Form::Transfer,
        }
    }
}
