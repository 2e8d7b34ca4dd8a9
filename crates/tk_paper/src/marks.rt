//! The markup of a page: its elements and attributes, of which none runs or loads anything.
ghost use Rattle.std.specs.Prelude.{◌≡◌};
ghost use Rattle.tk_paper.specs.Marks as spec;

/// An element.
#[derive(Clone, Copy, Debug, PartialEq, Eq)]
pub enum Tag {
    A,
    Article,
    B,
    Button,
    Caption,
    Dd,
    Details,
    Div,
    Dl,
    Dt,
    H1,
    H2,
    H3,
    Header,
    I,
    Input,
    Label,
    Li,
    Main,
    P,
    Path,
    Rect,
    Section,
    Small,
    Span,
    Summary,
    Svg,
    Table,
    Tbody,
    Td,
    Th,
    Thead,
    Tr,
    Ul,
}

/// An attribute. What a link leads to begins with `#t`: it is a place of the page.
#[derive(Clone, Copy, Debug, PartialEq, Eq)]
pub enum Attr {
    AriaHidden,
    AriaLabel,
    AriaLabelledby,
    Class,
    Colspan,
    D,
    DataOdd,
    DataSteps,
    DataV,
    Height,
    Href,
    Id,
    Preserve,
    Role,
    Scope,
    Title,
    Type,
    ViewBox,
    Width,
    X,
    Y,
}

/// A piece of markup.
#[derive(Clone, Copy, Debug, PartialEq, Eq)]
pub enum Mark {
    /// The beginning of an element's first tag.
    Open(Tag),
    /// An attribute, up to the quote before its value.
    Attr(Attr),
    /// The quote after a value.
    Quote,
    /// The end of a first tag.
    End,
    /// An element's last tag.
    Close(Tag),
}

/// Where a text is that goes on.
#[derive(Clone, Copy, Debug, PartialEq, Eq)]
pub enum Place {
    /// Between tags.
    Text,
    /// Within a first tag.
    Tag,
    /// Within an attribute's value.
    Value,
}

fn open_text(tag: Tag) -> &'static str
    ensures { result.now ≡ spec.open_text tag }
{
    match tag {
        Tag::A => "<a",
        Tag::Article => "<article",
        Tag::B => "<b",
        Tag::Button => "<button",
        Tag::Caption => "<caption",
        Tag::Dd => "<dd",
        Tag::Details => "<details",
        Tag::Div => "<div",
        Tag::Dl => "<dl",
        Tag::Dt => "<dt",
        Tag::H1 => "<h1",
        Tag::H2 => "<h2",
        Tag::H3 => "<h3",
        Tag::Header => "<header",
        Tag::I => "<i",
        Tag::Input => "<input",
        Tag::Label => "<label",
        Tag::Li => "<li",
        Tag::Main => "<main",
        Tag::P => "<p",
        Tag::Path => "<path",
        Tag::Rect => "<rect",
        Tag::Section => "<section",
        Tag::Small => "<small",
        Tag::Span => "<span",
        Tag::Summary => "<summary",
        Tag::Svg => "<svg",
        Tag::Table => "<table",
        Tag::Tbody => "<tbody",
        Tag::Td => "<td",
        Tag::Th => "<th",
        Tag::Thead => "<thead",
        Tag::Tr => "<tr",
        Tag::Ul => "<ul",
    }
}

fn close_text(tag: Tag) -> &'static str
    ensures { result.now ≡ spec.close_text tag }
{
    match tag {
        Tag::A => "</a>",
        Tag::Article => "</article>",
        Tag::B => "</b>",
        Tag::Button => "</button>",
        Tag::Caption => "</caption>",
        Tag::Dd => "</dd>",
        Tag::Details => "</details>",
        Tag::Div => "</div>",
        Tag::Dl => "</dl>",
        Tag::Dt => "</dt>",
        Tag::H1 => "</h1>",
        Tag::H2 => "</h2>",
        Tag::H3 => "</h3>",
        Tag::Header => "</header>",
        Tag::I => "</i>",
        Tag::Input => "</input>",
        Tag::Label => "</label>",
        Tag::Li => "</li>",
        Tag::Main => "</main>",
        Tag::P => "</p>",
        Tag::Path => "</path>",
        Tag::Rect => "</rect>",
        Tag::Section => "</section>",
        Tag::Small => "</small>",
        Tag::Span => "</span>",
        Tag::Summary => "</summary>",
        Tag::Svg => "</svg>",
        Tag::Table => "</table>",
        Tag::Tbody => "</tbody>",
        Tag::Td => "</td>",
        Tag::Th => "</th>",
        Tag::Thead => "</thead>",
        Tag::Tr => "</tr>",
        Tag::Ul => "</ul>",
    }
}

fn attr_text(attr: Attr) -> &'static str
    ensures { result.now ≡ spec.attr_text attr }
{
    match attr {
        Attr::AriaHidden => " aria-hidden=\"",
        Attr::AriaLabel => " aria-label=\"",
        Attr::AriaLabelledby => " aria-labelledby=\"",
        Attr::Class => " class=\"",
        Attr::Colspan => " colspan=\"",
        Attr::D => " d=\"",
        Attr::DataOdd => " data-odd=\"",
        Attr::DataSteps => " data-steps=\"",
        Attr::DataV => " data-v=\"",
        Attr::Height => " height=\"",
        Attr::Href => " href=\"#t",
        Attr::Id => " id=\"",
        Attr::Preserve => " preserveAspectRatio=\"",
        Attr::Role => " role=\"",
        Attr::Scope => " scope=\"",
        Attr::Title => " title=\"",
        Attr::Type => " type=\"",
        Attr::ViewBox => " viewBox=\"",
        Attr::Width => " width=\"",
        Attr::X => " x=\"",
        Attr::Y => " y=\"",
    }
}

/// What a piece of markup is written as.
pub fn mark_text(mark: Mark) -> &'static str
    ensures { result.now ≡ spec.mark_text mark }
{
    match mark {
        Mark::Open(tag) => open_text(tag),
        Mark::Attr(attr) => attr_text(attr),
        Mark::Quote => "\"",
        Mark::End => ">",
        Mark::Close(tag) => close_text(tag),
    }
}

/// Where a text goes on after a piece of markup, where that may stand there.
pub fn place_after(place: Place, mark: Mark) -> Option<Place>
    ensures { result ≡ spec.place_after place mark }
{
    match (place, mark) {
        (Place::Text, Mark::Open(_)) => Some(Place::Tag),
        (Place::Text, Mark::Close(_)) => Some(Place::Text),
        (Place::Tag, Mark::Attr(_)) => Some(Place::Value),
        (Place::Tag, Mark::End) => Some(Place::Text),
        (Place::Value, Mark::Quote) => Some(Place::Tag),
        _ => None,
    }
}
