// What the calls answer where nothing is refused. `specs/Answers.antt` gives the values.

// A surface point in net units.
#[derive(Clone, Copy)]
pub struct Point {
    pub x: i32,
    pub y: i32,
    pub z: i32,
}

// A viewer's point in millimetres.
#[derive(Clone, Copy)]
pub struct ViewPoint {
    pub x: f64,
    pub y: f64,
    pub z: f64,
}
