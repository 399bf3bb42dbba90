/// A pair whose value is a text.
#[derive(Clone, Copy, Debug)]
pub struct TextPair<'a> {
    pub key: &'a str,
    pub text: &'a str,
}
