// A 4 by 4 matrix, row by row, and its product with points, directions and normals. The last row of
// a product is not worked out.
ghost use Rattle.std.specs.Prelude.{◌≡◌};
ghost use Rattle.rays.specs.Matrices.{row_times_of, times_of, transpose_of, transform_point_of, transform_direction_of, transform_normal_of};

use crate::Vec3;

#[derive(Clone, Copy)]
pub struct Row {
    pub a: f64,
    pub b: f64,
    pub c: f64,
    pub d: f64,
}

#[derive(Clone, Copy)]
pub struct Mat4 {
    pub r0: Row,
    pub r1: Row,
    pub r2: Row,
    pub r3: Row,
}

impl Row {
    // The row times (v, last), the fourth column included.
    #[tactic(auto, unfolding(crate::specs::Matrices::row_times_of))]
    pub fn times(self, v: Vec3, last: f64) -> f64
        ensures { result ≡ row_times_of self v last }
    {
        self.a * v.x + self.b * v.y + self.c * v.z + self.d * last
    }
}

impl Mat4 {
    // The first three rows times (v, last).
    #[tactic(auto, unfolding(crate::specs::Matrices::times_of))]
    pub fn times(self, v: Vec3, last: f64) -> Vec3
        ensures { result ≡ times_of self v last }
    {
        Vec3 {
            x: self.r0.times(v, last),
            y: self.r1.times(v, last),
            z: self.r2.times(v, last),
        }
    }

    #[tactic(auto, unfolding(crate::specs::Matrices::transpose_of))]
    pub fn transpose(self) -> Mat4
        ensures { result ≡ transpose_of self }
    {
        let p = self.r0;
        let q = self.r1;
        let s = self.r2;
        let t = self.r3;
        Mat4 {
            r0: Row {
                a: p.a,
                b: q.a,
                c: s.a,
                d: t.a,
            },
            r1: Row {
                a: p.b,
                b: q.b,
                c: s.b,
                d: t.b,
            },
            r2: Row {
                a: p.c,
                b: q.c,
                c: s.c,
                d: t.c,
            },
            r3: Row {
                a: p.d,
                b: q.d,
                c: s.d,
                d: t.d,
            },
        }
    }

    #[tactic(auto, unfolding(crate::specs::Matrices::transform_point_of))]
    pub fn transform_point(self, p: Vec3) -> Vec3
        ensures { result ≡ transform_point_of self p }
    {
        self.times(p, 1.0)
    }

    #[tactic(auto, unfolding(crate::specs::Matrices::transform_direction_of))]
    pub fn transform_direction(self, d: Vec3) -> Vec3
        ensures { result ≡ transform_direction_of self d }
    {
        self.times(d, 0.0)
    }

    // Of an inverse matrix: the product of its transpose with a normal, not made a unit vector.
    #[tactic(auto, unfolding(crate::specs::Matrices::transform_normal_of))]
    pub fn transform_normal(self, n: Vec3) -> Vec3
        ensures { result ≡ transform_normal_of self n }
    {
        self.transpose().times(n, 0.0)
    }
}
