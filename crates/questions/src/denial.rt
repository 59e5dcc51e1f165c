// Denials: the question that was answered no, and what it was asked of.
ghost use Rattle.std.specs.Prelude.{◌≡◌, Some};
ghost use Rattle.questions.specs.Denials.{number_of, layer_text, told, refusal};

use std::fmt;

// The questions that calls ask, each with its number.
#[derive(Clone, Copy, PartialEq, Eq, Debug)]
pub enum Question {
    // node count 1 to 64?
    NodeCount = 1,
    // place count at most 256?
    PlaceCount = 2,
    // at least four bytes?
    HeaderBytes = 3,
    // image length 4 + 12 × places?
    ImageLength = 4,
    // both ends below the node count?
    EndsExist = 5,
    // ends different?
    EndsDiffer = 6,
    // weight above 0?
    WeightPositive = 7,
    // delay at most 100,000?
    DelayLimit = 8,
    // figure at most 1,000,000?
    FigureLimit = 9,
    // the ten figure bytes of an empty place all 00?
    EmptyBlank = 10,
    // place below the place count?
    PlaceExists = 11,
    // place filled?
    PlaceFilled = 12,
    // space for storing at least 4 + 12 × places?
    StoreSpace = 13,
    // source and target below the node count?
    OrderNodes = 14,
    // label limit 1 to 10?
    LabelLimit = 15,
    // grain 1 to 10,000?
    GrainRange = 16,
    // the bound at most 1,000 grains?
    BoundGrains = 17,
    // working slices long enough?
    WorkingSpace = 18,
    // list space at least the label limit?
    ListSpace = 19,
    // any list within the order?
    AnyList = 20,
    // a front slot for every number of grains within the bound?
    FrontSpace = 21,
    // at most 10 walked entries?
    WalkLength = 22,
    // each entry legal?
    EntryLegal = 23,
    // grains below the keeper's slot count?
    KeeperSlot = 24,
    // at least eight bytes behind the map part?
    SheetHeader = 25,
    // at most 200 orders?
    OrderCount = 26,
    // sheet length exact?
    SheetLength = 27,
}

// What a denial's place counts.
#[derive(Clone, Copy, PartialEq, Eq, Debug)]
pub enum Layer {
    // a place of the map; 0 for the map's sizes, as the line of a refusal has three fields always
    Map,
    // an entry of a segment list, by its index
    List,
    // the bytes that were handed over
    File,
    // an order, by its index in a sheet; 0 outside a sheet
    Order,
}

#[derive(Clone, Copy, PartialEq, Eq, Debug)]
pub struct Denial {
    pub question: Question,
    pub layer: Layer,
    pub place: usize,
}

impl Denial {
    pub fn new(question: Question, layer: Layer, place: usize) -> Denial
        ensures { result ≡ told question layer place }
    {
        Denial {
            question,
            layer,
            place,
        }
    }
}

impl Question {
    pub fn number(self) -> u8
        ensures { result ≡ number_of self }
    {
        self as u8
    }
}

impl Layer {
    // A `Display` would only print this text again.
    pub fn text(self) -> &'static str
        ensures { result.now ≡ layer_text self }
    {
        match self {
            Layer::Map => "map",
            Layer::List => "list",
            Layer::File => "file",
            Layer::Order => "order",
        }
    }
}

// `refused NUMBER LAYER PLACE`
impl fmt::Display for Denial {
    ghost output = { λ d. Some (refusal d) };

    fn fmt<W: fmt::Write>(&self, f: &mut fmt::Formatter<W>) -> fmt::Result {
        write!(
            f,
            "refused {} {} {}",
            self.question.number(),
            self.layer.text(),
            self.place
        )
    }
}
