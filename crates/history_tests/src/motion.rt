//! A ring of a saved history in motion. The picture is that of another program, `models/motion.py`.

use history_motion::motion;
use ring_model::limits::MACHINE_LIMIT;
use saved_history::read_saved;
use std::alloc::Global;

/// A group, a fault, and two passes, one of them refused.
const EVENTS: &str = "ringfarm 2\nring 0 4 4\nstart 0 2 1 0\n\
    m 0 1 0 2 1 0\nm 0 0 0 1 2 0\nm 0 3 0 0 3 0\nc 0 2 3 1\np 0 2 0 g 4 0\np 0 2 0 n\nend 6\ndone 1\n";

/// From inside the group to the end.
const PICTURE: &str = "\
    <svg xmlns=\"http://www.w3.org/2000/svg\" viewBox=\"0 0 1000 680\" font-family=\"sans-serif\" font-size=\"15\">\n\
    <rect width=\"1000\" height=\"680\" rx=\"8\" fill=\"#fff\"/>\n\
    <text x=\"70\" y=\"36\" font-size=\"22\">ring 0: n 4, K 4</text>\n\
    <text x=\"70\" y=\"62\">events 1 to 6 of 6</text>\n\
    <g transform=\"translate(500 320)\">\n\
    <circle r=\"200\" fill=\"none\" stroke=\"#ccc\" stroke-width=\"2\"/>\n\
    <g transform=\"rotate(0e-2) translate(0 -200)\">\n\
    <circle r=\"17\" fill=\"#fff\" stroke=\"#555\" stroke-width=\"2\"/>\n\
    <circle r=\"17\" fill=\"#15489f\" opacity=\"1\"><animate attributeName=\"opacity\" calcMode=\"discrete\" dur=\"2400ms\" repeatCount=\"indefinite\" values=\"1;1;1;1;1;1\"/></circle>\n\
    <circle r=\"24\" fill=\"none\" stroke=\"#e69f00\" stroke-width=\"6\" opacity=\"0\"><animate attributeName=\"opacity\" calcMode=\"discrete\" dur=\"2400ms\" repeatCount=\"indefinite\" values=\"0;0;0;0;0;0\"/></circle>\n\
    <text y=\"-34\" transform=\"rotate(-0e-2 0 -40)\" text-anchor=\"middle\">0</text>\n\
    </g>\n\
    <g transform=\"rotate(9000e-2) translate(0 -200)\">\n\
    <circle r=\"17\" fill=\"#fff\" stroke=\"#555\" stroke-width=\"2\"/>\n\
    <circle r=\"17\" fill=\"#15489f\" opacity=\"1\"><animate attributeName=\"opacity\" calcMode=\"discrete\" dur=\"2400ms\" repeatCount=\"indefinite\" values=\"1;1;1;1;1;1\"/></circle>\n\
    <circle r=\"24\" fill=\"none\" stroke=\"#e69f00\" stroke-width=\"6\" opacity=\"0\"><animate attributeName=\"opacity\" calcMode=\"discrete\" dur=\"2400ms\" repeatCount=\"indefinite\" values=\"0;0;0;0;0;0\"/></circle>\n\
    <text y=\"-34\" transform=\"rotate(-9000e-2 0 -40)\" text-anchor=\"middle\">1</text>\n\
    </g>\n\
    <g transform=\"rotate(18000e-2) translate(0 -200)\">\n\
    <circle r=\"17\" fill=\"#fff\" stroke=\"#555\" stroke-width=\"2\"/>\n\
    <circle r=\"17\" fill=\"#15489f\" opacity=\"1\"><animate attributeName=\"opacity\" calcMode=\"discrete\" dur=\"2400ms\" repeatCount=\"indefinite\" values=\"1;1;1;1;0;0\"/></circle>\n\
    <circle r=\"24\" fill=\"none\" stroke=\"#e69f00\" stroke-width=\"6\" opacity=\"0\"><animate attributeName=\"opacity\" calcMode=\"discrete\" dur=\"2400ms\" repeatCount=\"indefinite\" values=\"0;0;0;1;0;0\"/></circle>\n\
    <text y=\"-34\" transform=\"rotate(-18000e-2 0 -40)\" text-anchor=\"middle\">2</text>\n\
    </g>\n\
    <g transform=\"rotate(27000e-2) translate(0 -200)\">\n\
    <circle r=\"17\" fill=\"#fff\" stroke=\"#555\" stroke-width=\"2\"/>\n\
    <circle r=\"17\" fill=\"#15489f\" opacity=\"1\"><animate attributeName=\"opacity\" calcMode=\"discrete\" dur=\"2400ms\" repeatCount=\"indefinite\" values=\"1;1;0;1;1;1\"/></circle>\n\
    <circle r=\"24\" fill=\"none\" stroke=\"#e69f00\" stroke-width=\"6\" opacity=\"0\"><animate attributeName=\"opacity\" calcMode=\"discrete\" dur=\"2400ms\" repeatCount=\"indefinite\" values=\"0;0;0;0;0;0\"/></circle>\n\
    <text y=\"-34\" transform=\"rotate(-27000e-2 0 -40)\" text-anchor=\"middle\">3</text>\n\
    </g>\n\
    </g>\n\
    <rect x=\"70\" y=\"590\" width=\"860\" height=\"8\" fill=\"#ddd\"/>\n\
    <rect x=\"70\" y=\"590\" width=\"0\" height=\"8\" fill=\"#555\"><animate attributeName=\"width\" dur=\"2400ms\" repeatCount=\"indefinite\" from=\"0\" to=\"860\"/></rect>\n\
    <text x=\"70\" y=\"618\">1</text>\n\
    <text x=\"500\" y=\"618\" text-anchor=\"middle\">events</text>\n\
    <text x=\"930\" y=\"618\" text-anchor=\"end\">6</text>\n\
    <circle cx=\"78\" cy=\"648\" r=\"8\" fill=\"#15489f\"/>\n\
    <text x=\"94\" y=\"653\">privileged</text>\n\
    <circle cx=\"218\" cy=\"648\" r=\"8\" fill=\"none\" stroke=\"#e69f00\" stroke-width=\"4\"/>\n\
    <text x=\"236\" y=\"653\">corruption</text>\n\
    <text x=\"350\" y=\"653\">each event takes 0.4 s; then it begins anew</text>\n\
    </svg>\n";

/// The motion of the first ring of a saved text, of which one event is left out.
fn motion_of(alloc: Global, text: &[u8]) -> Option<Vec<u8>> {
    let saved = read_saved(alloc, text).ok()?;
    let ring = saved.rings.first()?;
    if ring.k == 0 || ring.n > MACHINE_LIMIT {
        return None;
    }
    motion(alloc, ring, 1, 5).ok()
}

#[test]
fn a_picture_moves_from_a_place_on(rt: HostRuntime) {
    let Some(picture) = motion_of(rt.alloc(), EVENTS.as_bytes()) else {
        panic!(rt; "no picture");
    };
    assert!(rt; picture.as_slice() == PICTURE.as_bytes());
}
