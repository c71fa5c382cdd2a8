// The calls of the library, each by its number in the sample. The lists of numbers stand in the order of the call's parameters, and so do the
// words; a single number is a list of one.
use crate::case::Case;

// The calls, in the order of their numbers.
#[derive(Clone, Copy)]
pub enum Call {
    FromPoints,
    Push,
    Merge,
    Transformed,
    MeanAndScatter,
    Plane,
    PlaneNew,
    Sigma,
    Remap,
    Fit,
    Build,
    Accumulate,
    Linearize,
    AccumulateMatches,
    LinearizeMatches,
    LinearizeMatch,
    FitBundle,
    LinearizeBundle,
    AccumulateTransformed,
    AccumulateMatchesTransformed,
    Transform,
}

// The number of no call.
#[derive(Clone, Copy)]
pub struct Unknown;

impl TryFrom<u32> for Call {
    type Error = Unknown;

    fn try_from(number: u32) -> Result<Call, Unknown> {
        Ok(match number {
            0 => Call::FromPoints,
            1 => Call::Push,
            2 => Call::Merge,
            3 => Call::Transformed,
            4 => Call::MeanAndScatter,
            5 => Call::Plane,
            6 => Call::PlaneNew,
            7 => Call::Sigma,
            8 => Call::Remap,
            9 => Call::Fit,
            10 => Call::Build,
            11 => Call::Accumulate,
            12 => Call::Linearize,
            13 => Call::AccumulateMatches,
            14 => Call::LinearizeMatches,
            15 => Call::LinearizeMatch,
            16 => Call::FitBundle,
            17 => Call::LinearizeBundle,
            18 => Call::AccumulateTransformed,
            19 => Call::AccumulateMatchesTransformed,
            20 => Call::Transform,
            _ => return Err(Unknown),
        })
    }
}

impl Call {
    // Whether its first word is the freedom, which it does not write.
    pub fn has_freedom(self) -> bool {
        match self {
            Call::FromPoints
            | Call::Push
            | Call::Merge
            | Call::Transformed
            | Call::MeanAndScatter
            | Call::Plane
            | Call::PlaneNew
            | Call::Sigma
            | Call::Remap
            | Call::FitBundle => false,
            _ => true,
        }
    }

    // Whether it writes its second list of words.
    pub fn writes_second(self) -> bool {
        matches!(self, Call::Build)
    }

    // Whether the call of a case answers and leaves what it should, but for the words that no call of its kind writes.
    pub fn agrees(self, c: Case) -> bool {
        match self {
            Call::FromPoints => from_points(c),
            Call::Push => push(c),
            Call::Merge => merge(c),
            Call::Transformed => transformed(c),
            Call::MeanAndScatter => mean_and_scatter(c),
            Call::Plane => plane(c),
            Call::PlaneNew => plane_new(c),
            Call::Sigma => sigma(c),
            Call::Remap => remap(c),
            Call::Fit => fit(c),
            Call::Build => build(c),
            Call::Accumulate => accumulate(c),
            Call::Linearize => linearize(c),
            Call::AccumulateMatches => accumulate_matches(c),
            Call::LinearizeMatches => linearize_matches(c),
            Call::LinearizeMatch => linearize_match(c),
            Call::FitBundle => fit_bundle(c),
            Call::LinearizeBundle => linearize_bundle(c),
            Call::AccumulateTransformed => accumulate_transformed(c),
            Call::AccumulateMatchesTransformed => accumulate_matches_transformed(c),
            Call::Transform => transform(c),
        }
    }
}

fn from_points(c: Case) -> bool {
    let mut moments = [0.0; 8192];
    let answer = maghnelt::maghnelt_moments_from_points(c.numbers(0), c.written(1, &mut moments));
    c.wrote(answer, 1, &moments)
}

fn push(c: Case) -> bool {
    let mut moments = [0.0; 8192];
    let point = c.numbers(1);
    let answer = maghnelt::maghnelt_moments_push(c.written(0, &mut moments), point);
    c.wrote(answer, 0, &moments) & c.left(1, point)
}

fn merge(c: Case) -> bool {
    let mut moments = [0.0; 8192];
    let other = c.numbers(1);
    let answer = maghnelt::maghnelt_moments_merge(c.written(0, &mut moments), other);
    c.wrote(answer, 0, &moments) & c.left(1, other)
}

fn transformed(c: Case) -> bool {
    let mut out = [0.0; 8192];
    let answer = maghnelt::maghnelt_moments_transformed(
        c.numbers(0),
        c.numbers(1),
        c.numbers(2),
        c.written(3, &mut out),
    );
    c.wrote(answer, 3, &out)
}

fn mean_and_scatter(c: Case) -> bool {
    let mut out = [0.0; 8192];
    let mut found = c.word(0);
    let answer = maghnelt::maghnelt_moments_mean_and_scatter(
        c.numbers(0),
        c.written(1, &mut out),
        &mut found,
    );
    c.wrote(answer, 1, &out) & c.left_word(0, found)
}

fn plane(c: Case) -> bool {
    let mut out = [0.0; 8192];
    let mut found = c.word(0);
    let answer = maghnelt::maghnelt_moments_plane(
        c.numbers(0),
        c.patterns,
        c.written(1, &mut out),
        &mut found,
    );
    c.wrote(answer, 1, &out) & c.left_word(0, found)
}

fn plane_new(c: Case) -> bool {
    let mut out = [0.0; 8192];
    let answer = maghnelt::maghnelt_plane_new(c.numbers(0), c.number(1), c.written(2, &mut out));
    c.wrote(answer, 2, &out)
}

fn sigma(c: Case) -> bool {
    let mut sigma = c.number(6);
    let answer = maghnelt::maghnelt_point_to_plane_sigma(
        c.numbers(0),
        c.numbers(1),
        c.numbers(2),
        c.numbers(3),
        c.numbers(4),
        c.numbers(5),
        &mut sigma,
    );
    c.answers(answer) & c.kept(6) & c.left_number(6, sigma)
}

fn remap(c: Case) -> bool {
    let mut first = [0; 1100];
    let map = c.read_words(0, &mut first);
    let mut out = [0; 1100];
    let answer = maghnelt::maghnelt_remap(map, c.words, c.read_words(2, &mut out));
    c.answers(answer) & c.left_words(0, map) & c.left_words(2, &out)
}

fn fit(c: Case) -> bool {
    let mut out = [0.0; 8192];
    let answer = maghnelt::maghnelt_frames_fit(
        c.word(0),
        c.numbers(0),
        c.numbers(1),
        c.numbers(2),
        c.written(3, &mut out),
    );
    c.wrote(answer, 3, &out)
}

fn build(c: Case) -> bool {
    let mut centred_frames = [0.0; 8192];
    let mut centred_fixed = [0.0; 8192];
    let mut points = c.number(5);
    let mut dropped = c.word(1);
    let answer = maghnelt::maghnelt_frames_build(
        c.word(0),
        c.numbers(0),
        c.numbers(1),
        c.number(2),
        c.written(3, &mut centred_frames),
        c.written(4, &mut centred_fixed),
        &mut points,
        &mut dropped,
    );
    c.wrote(answer, 3, &centred_frames)
        & c.left(4, &centred_fixed)
        & c.left_number(5, points)
        & c.left_word(1, dropped)
}

fn accumulate(c: Case) -> bool {
    let mut hessian = [0.0; 8192];
    let mut gradient = [0.0; 8192];
    let mut cost = c.number(6);
    let answer = maghnelt::maghnelt_frames_accumulate(
        c.word(0),
        c.numbers(0),
        c.numbers(1),
        c.number(2),
        c.numbers(3),
        c.patterns,
        c.words,
        c.written(4, &mut hessian),
        c.written(5, &mut gradient),
        &mut cost,
    );
    c.wrote(answer, 4, &hessian) & c.left(5, &gradient) & c.left_number(6, cost)
}

fn linearize(c: Case) -> bool {
    let mut residual = [0.0; 8192];
    let mut jacobian = [0.0; 8192];
    let answer = maghnelt::maghnelt_frames_linearize(
        c.word(0),
        c.numbers(0),
        c.numbers(1),
        c.number(2),
        c.numbers(3),
        c.patterns,
        c.written(4, &mut residual),
        c.written(5, &mut jacobian),
    );
    c.wrote(answer, 4, &residual) & c.left(5, &jacobian)
}

fn accumulate_matches(c: Case) -> bool {
    let mut hessian = [0.0; 8192];
    let mut gradient = [0.0; 8192];
    let mut cost = c.number(4);
    let answer = maghnelt::maghnelt_matches_accumulate(
        c.word(0),
        c.numbers(0),
        c.numbers(1),
        c.words,
        c.written(2, &mut hessian),
        c.written(3, &mut gradient),
        &mut cost,
    );
    c.wrote(answer, 2, &hessian) & c.left(3, &gradient) & c.left_number(4, cost)
}

fn linearize_matches(c: Case) -> bool {
    let mut residual = [0.0; 8192];
    let mut jacobian = [0.0; 8192];
    let answer = maghnelt::maghnelt_matches_linearize(
        c.word(0),
        c.numbers(0),
        c.numbers(1),
        c.written(2, &mut residual),
        c.written(3, &mut jacobian),
    );
    c.wrote(answer, 2, &residual) & c.left(3, &jacobian)
}

fn linearize_match(c: Case) -> bool {
    let mut residual = c.number(4);
    let mut row = [0.0; 8192];
    let answer = maghnelt::maghnelt_match_linearize(
        c.word(0),
        c.numbers(0),
        c.numbers(1),
        c.numbers(2),
        c.numbers(3),
        &mut residual,
        c.written(5, &mut row),
    );
    c.answers(answer) & c.kept(4) & c.left_number(4, residual) & c.left(5, &row)
}

fn fit_bundle(c: Case) -> bool {
    let mut room = [0; 1100];
    let counts = c.read_words(0, &mut room);
    let mut out = [0.0; 8192];
    let answer = maghnelt::maghnelt_bundle_fit(
        counts,
        c.numbers(0),
        c.numbers(1),
        c.written(2, &mut out),
    );
    c.wrote(answer, 2, &out) & c.left_words(0, counts)
}

fn linearize_bundle(c: Case) -> bool {
    let mut residual = [0.0; 8192];
    let mut jacobian = [0.0; 8192];
    let answer = maghnelt::maghnelt_bundle_linearize(
        c.word(0),
        c.words,
        c.numbers(0),
        c.numbers(1),
        c.numbers(2),
        c.number(3),
        c.patterns,
        c.written(4, &mut residual),
        c.written(5, &mut jacobian),
    );
    c.wrote(answer, 4, &residual) & c.left(5, &jacobian)
}

fn accumulate_transformed(c: Case) -> bool {
    let mut room = [0; 1100];
    let shapes = c.read_words(2, &mut room);
    let mut hessian = [0.0; 8192];
    let mut gradient = [0.0; 8192];
    let mut cost = c.number(7);
    let answer = maghnelt::maghnelt_frames_accumulate_transformed(
        c.word(0),
        c.numbers(0),
        c.numbers(1),
        c.number(2),
        c.numbers(3),
        c.patterns,
        c.words,
        shapes,
        c.numbers(4),
        c.written(5, &mut hessian),
        c.written(6, &mut gradient),
        &mut cost,
    );
    c.wrote(answer, 5, &hessian)
        & c.left(6, &gradient)
        & c.left_number(7, cost)
        & c.left_words(2, shapes)
}

fn accumulate_matches_transformed(c: Case) -> bool {
    let mut room = [0; 1100];
    let shapes = c.read_words(2, &mut room);
    let mut hessian = [0.0; 8192];
    let mut gradient = [0.0; 8192];
    let mut cost = c.number(5);
    let answer = maghnelt::maghnelt_matches_accumulate_transformed(
        c.word(0),
        c.numbers(0),
        c.numbers(1),
        c.words,
        shapes,
        c.numbers(2),
        c.written(3, &mut hessian),
        c.written(4, &mut gradient),
        &mut cost,
    );
    c.wrote(answer, 3, &hessian)
        & c.left(4, &gradient)
        & c.left_number(5, cost)
        & c.left_words(2, shapes)
}

fn transform(c: Case) -> bool {
    let mut first = [0; 1100];
    let shapes = c.read_words(2, &mut first);
    let mut second = [0; 1100];
    let further_shape = c.read_words(4, &mut second);
    let place = c.word(3);
    let mut out_shapes = [0; 1100];
    let mut out_transforms = [0.0; 8192];
    let answer = maghnelt::maghnelt_transform(
        c.word(0),
        c.words,
        shapes,
        c.numbers(0),
        place,
        further_shape,
        c.numbers(1),
        c.read_words(5, &mut out_shapes),
        c.written(2, &mut out_transforms),
    );
    c.wrote(answer, 2, &out_transforms)
        & c.left_words(2, shapes)
        & c.left_word(3, place)
        & c.left_words(4, further_shape)
        & c.left_words(5, &out_shapes)
}
