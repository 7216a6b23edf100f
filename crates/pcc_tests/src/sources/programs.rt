//! Small programs, each with its input, what it writes and how it ends: as `gcc -fwrapv` has it, and by hand where a
//! program traps, or where C99 leaves a choice open that `docs/DECISIONS.md` makes.

/// What stands before each program: `put` writes a number, and `line` writes one with a space behind.
pub(crate) const BEFORE: &str = "\
    void put(int n){if(n<0)putchar(45);if(n>9||n<-9)put(n<0?-(n/10):n/10);putchar(48+(n<0?-(n%10):n%10));}void \
    line(int n){put(n);putchar(32);}";

/// Operators on numbers (C99 6.5.3 to 6.5.12).
pub const OPERATORS: &str = "\
9 rows
int main(void){int a=2147483647,b=1;line(a+b);line(-a-2);line(a*2);line(a*a);line(b-a);return a+b+b;} \
    => -2147483648 2147483647 -2 1 -2147483646  => Ended(1)
int main(void){int a=-7,b=2;line(a/b);line(a%b);line(7/-b);line(7%-b);line(a*b);return a/b;} \
    => -3 -1 -3 1 -14  => Ended(253)
int main(void){int a=-8,k=1;line(a>>k);line(a<<k);line(1<<31);line((1<<31)>>31);line(5>>k);return 1<<k;} \
    => -4 -16 -2147483648 -1 2  => Ended(2)
int main(void){int a=12,b=10;line(a&b);line(a|b);line(a^b);line(~a);line(-1&b);line(~a&~b);return a^b;} \
    => 8 14 6 -13 10 -15  => Ended(6)
int main(void){int a=-2147483647-1;line(-a);line(+a);line(~a);line(!a);line(!!a);line(!0);return !a;} \
    => -2147483648 -2147483648 2147483647 0 1 1  => Ended(0)
int main(void){int a=3,b=-3;line(a<b);line(a<=b);line(a>b);line(a>=b);line(a==b);line(a!=b);return a>b;} \
    => 0 0 1 1 0 1  => Ended(1)
int main(void){int a=2;line(a+3*4-a);line((a+3)*4);line(100-(a-1)-1);line(a*3%4<<1|1);return a-1-1;} \
    => 12 20 98 5  => Ended(0)
int main(void){int k=33;line(1<<k);line(-8>>-31);k=32;line(5<<k);return 1<<31>>k>>31;} => 2 -4 5  => Ended(255)
int main(void){int a=1;line((a,2));line((a=5,a+1));line(a);return (putchar(65),putchar(66),a);} \
    => 2 6 5 AB => Ended(5)";

/// Conversions between integer types (C99 6.3.1).
pub(crate) const CONVERSIONS: &str = "\
7 rows
int main(void){char c=200;short s=70000;int i=c+s;line(c);line(s);line(i);c=s;line(c);return c;} \
    => -56 4464 4408 112  => Ended(112)
int main(void){int i=305419896;line((char)i);line((short)i);line((short)-40000);line((char)-129);return (char)i;} \
    => 120 22136 25536 127  => Ended(120)
int main(void){char c=127;c=c+1;line(c);c=127;line(c+1);short s=32767;s=s+1;line(s);return c;} \
    => -128 128 -32768  => Ended(127)
int main(void){char c=100;int r=c*c;line(r);c=c*c;line(c);line((char)(c<<4));return c;} => 10000 16 0  => Ended(16)
char half(char c){return c*2;} short twice(short s){return s*2;} int main(void){line(half(100));line(twice(20000));\
    line(half(300));return half(70);} => -56 -25536 88  => Ended(140)
int main(void){char c;short s;int i;i=s=c=321;line(i);line(s);line(c);i=(c=1000)+1;line(i);return s;} \
    => 65 65 65 -23  => Ended(65)
int main(void){char a=-1;short b=-1;line(a==b);line(a==255);line((char)255==a);line(a<b);return a>>1;} \
    => 1 0 1 0  => Ended(255)";

/// Conditions: `?:`, `&&`, `||` and `if` (C99 6.5.13 to 6.5.15 and 6.8.4.1).
pub const CONDITIONS: &str = "\
9 rows
int t(int n){put(n);return n;} int main(void){line(t(0)&&t(1));line(t(2)&&t(0));line(t(3)&&t(4));return t(5)&&1;} \
    => 00 200 341 5 => Ended(1)
int t(int n){put(n);return n;} int main(void){line(t(0)||t(1));line(t(2)||t(0));line(t(0)||t(0));return 0||t(7);} \
    => 011 21 000 7 => Ended(1)
int main(void){int a=3;line(a?10:20);line(a-3?10:20);line(a>2?a<3?1:2:3);line((a?a:1)+1);return a==3?5:6;} \
    => 10 20 2 4  => Ended(5)
int main(void){char c=-1;int b=1;line(b?c:300);line(b?300:c);c=b?300:5;line(c);line((char)(b?200:1));return b?c:1;} \
    => -1 300 44 -56  => Ended(44)
int s; int main(void){1?(s=1):(s=2);line(s);0?(s=3):(s=4);line(s);s?(void)line(8):(void)line(9);return s;} \
    => 1 4 8  => Ended(4)
int main(void){int a=5;if(a)line(1);if(!a)line(2);if(a<3)line(3);else if(a<6)line(4);else line(5);return 0;} \
    => 1 4  => Ended(0)
int main(void){int a=1,b=0;if(a&&b||!b&&a)line(1);if(!(a||b))line(2);else line(3);if(a,b)line(4);return a&&b||a;} \
    => 1 3  => Ended(1)
int main(void){int a=4,b;b=a>3&&a<5;line(b);b=(a==4)+(a!=4)*2;line(b);b=!(a>3||a/0);line(b);return b+(a&&1);} \
    => 1 1 0  => Ended(1)
int main(void){int a=2;while(a>0?a!=1:0)a--;do a+=3;while(!(a>9)&&a);line(a);return a>9?a?1:2:3;} => 10  => Ended(1)";

/// Assignments, with an operator too, `++` and `--` (C99 6.5.2.4, 6.5.3.1 and 6.5.16).
pub(crate) const ASSIGNMENTS: &str = "\
9 rows
int main(void){int a=10;a+=5;line(a);a-=3;line(a);a*=4;line(a);a/=5;line(a);a%=4;line(a);return a;} \
    => 15 12 48 9 1  => Ended(1)
int main(void){int a=6;a<<=2;line(a);a>>=1;line(a);a&=14;line(a);a|=3;line(a);a^=5;line(a);return a;} \
    => 24 12 12 15 10  => Ended(10)
int main(void){int a=5;line(a++);line(a);line(++a);line(a--);line(--a);line(-a--);return a;} \
    => 5 6 7 7 5 -5  => Ended(4)
int main(void){char c=127;line(c++);line(c);line(--c);c+=2;line(c);short s=-32768;line(--s);line(s++);return c;} \
    => 127 -128 127 -127 32767 32767  => Ended(129)
int main(void){int a=1,b=2,c;c=a=b=7;line(a);line(b);line(c);c-=a-=2;line(c);line(a);return c+=a*=2;} \
    => 7 7 7 2 5  => Ended(12)
int main(void){char c=100;line(c+=100);line(c);line(c*=2);line(c<<=3);line(c);int i=1;i+=c;line(i);return i;} \
    => -56 -56 -112 -128 -128 -127  => Ended(129)
int main(void){int a[3]={1,2,3};int i=0;a[i]+=5;a[2]*=a[1];line(a[0]);line(a[2]);line(a[1]++);line(--a[1]);return \
    ++a[0];} => 6 6 2 2  => Ended(7)
static short g=5; int main(void){g+=3;line(g++);line(--g);g<<=13;line(g);g^=1;line(g);return g;} \
    => 8 8 0 1  => Ended(1)
int main(void){int x=3;x=x+(x=10)*0+x;line(x);int y=2;y+=y++*0+y;line(y);return x;} => 13 5  => Ended(13)";

/// Loops, `break` and `continue` (C99 6.8.5 and 6.8.6).
pub(crate) const LOOPS: &str = "\
9 rows
int main(void){int i=0;while(i<5)line(i++);while(i>0){i--;if(i==3)continue;if(i==1)break;line(i);}return i;} \
    => 0 1 2 3 4 4 2  => Ended(1)
int main(void){for(int i=0;i<10;i++){if(i%2)continue;if(i>6)break;line(i);}return 0;} => 0 2 4 6  => Ended(0)
int main(void){int i=0;do{line(i);if(i==2)break;}while(i++<9);do line(i);while(0);return i;} => 0 1 2 2  => Ended(2)
int main(void){int i=0,s=0;do{i++;if(i%3==0)continue;s+=i;}while(i<10);line(i);return s;} => 10  => Ended(37)
int main(void){int n=0;for(int a=0;a<4;a++)for(int b=a;b<4;b++){if(b==3)break;n=n*3+b;}line(n);return n%256;} \
    => 152  => Ended(152)
int main(void){int i;for(i=0;;){if(i++>3)break;line(i);}for(;i<7;)i++;for(int a=0,b=9;a<b;a++,b--)line(a*b);return i;\
    } => 1 2 3 4 0 8 14 18 20  => Ended(7)
int main(void){int i=3;while(i){int i=0;do{int j=i;i+=j+1;}while(i<6);line(i);break;}return i;} => 7  => Ended(3)
int main(void){for(int i=0;i<3;i++){int k;int a[2];line(k);line(a[1]);k=i+5;a[1]=k;}return 0;} \
    => 0 0 0 0 0 0  => Ended(0)
int main(void){int n=0;while(1)n++;return n;} =>  => TurnsSpent";

/// `switch` (C99 6.8.4.2).
pub(crate) const SWITCHES: &str = "\
7 rows
void s(int n){switch(n){case 1:put(1);case 2:put(2);break;case 3:put(3);default:put(4);}putchar(32);}int \
    main(void){for(int i=0;i<5;i++)s(i);return 0;} => 4 12 2 34 4  => Ended(0)
void s(int n){switch(n){default:put(9);case 5:put(5);break;case -7:put(7);}putchar(32);}int main(void){s(5);s(-7);\
    s(0);return 3;} => 5 7 95  => Ended(3)
int s(int n){switch(n){case 10:return 1;case 20:n++;break;case 30:default:n+=2;}return n;}int main(void){line(s(10));\
    line(s(20));line(s(30));line(s(40));return s(20);} => 1 21 32 42  => Ended(21)
int main(void){int n=0;for(int i=0;i<6;i++){switch(i){case 1:continue;case 4:break;default:n+=i;}n*=2;}line(n);\
    return n;} => 66  => Ended(66)
int main(void){switch(3){case 3:line(1);}switch(4){case 3:line(2);}switch(1){}switch((char)257){case 1:line(3);}\
    return 0;} => 1 3  => Ended(0)
int main(void){int n=2;switch(n++){case 2:switch(n){case 3:line(33);break;default:line(34);}case 9:line(n);}return n;\
    } => 33 3  => Ended(3)
int main(void){int n=0;while(n<9)switch(n){case 0:n=4;case 4:n++;break;default:n=n*2-1;}line(n);return n;} \
    => 9  => Ended(9)";

/// Functions, recursion and arguments (C99 6.5.2.2 and 6.9.1).
pub(crate) const CALLS: &str = "\
12 rows
int f(int n){return n<2?1:n*f(n-1);} int main(void){line(f(5));line(f(12));line(f(13));return f(6)%256;} \
    => 120 479001600 1932053504  => Ended(208)
int odd(int n); int even(int n){return n==0?1:odd(n-1);} int odd(int n){return n==0?0:even(n-1);}int \
    main(void){line(even(10));line(odd(10));return even(7)+odd(7)*2;} => 1 0  => Ended(2)
int f(int a,int b,int c){return a*100+b*10+c;} int main(void){int i=0;line(f(i++,i++,i++));return i;} \
    => 12  => Ended(3)
int p(int n){put(n);return n;} int f(int a,int b){return a-b;} int main(void){return f(p(9),p(4));} => 94 => Ended(5)
int f(int a){a+=5;return a;} int main(void){int a=1;line(f(a));line(a);line(f(f(f(a))));return f(a)+a;} \
    => 6 1 16  => Ended(7)
void f(int n){if(n==0)return;f(n-1);line(n);} int main(void){f(4);return 0;} => 1 2 3 4  => Ended(0)
int f(int x){int f=x;{int x=f*2;f=x;}return f+x;} int main(void){line(f(3));int main=4;return main;} => 9  => Ended(4)
int fib(int n){if(n<2)return n;return fib(n-1)+fib(n-2);} int main(void){line(fib(12));return fib(10);} \
    => 144  => Ended(55)
int f(int a,char b,short c,int d,int e){return a+b*2+c*3+d*5+e*7;} int main(void){line(f(1,300,70000,-1,2));return 0;\
    } => 13490  => Ended(0)
int f(int n){return n+1;} int main(void){f(1);(void)f(2);int a=f(3)*f(4)-f(5);line(a);f(1),f(2);return f(a)-f(a-1);} \
    => 14  => Ended(1)
int a(int m,int n){return m==0?n+1:n==0?a(m-1,1):a(m-1,a(m,n-1));} int main(void){line(a(2,3));return a(1,5);} \
    => 9  => Ended(7)
int main(void){line(7);} => 7  => Ended(0)";

/// Arrays, strings and their initialisers (C99 6.5.2.1 and 6.7.8).
pub(crate) const ARRAYS: &str = "\
9 rows
int main(void){int a[5];for(int i=0;i<5;i++)a[i]=i*i;int s=0;for(int i=4;i>=0;i--)s=s*3+a[i];line(s);return a[3];} \
    => 1578  => Ended(9)
int main(void){int a[4]={1,2};char c[3]={300,-1,5};short s[2]={70000};for(int i=0;i<4;i++)line(a[i]);line(c[0]);\
    line(c[1]);line(s[0]);return s[1];} => 1 2 0 0 44 -1 4464  => Ended(0)
int main(void){char s[]=\"abc\";char t[5]=\"xy\";for(int i=0;i<4;i++)line(s[i]);for(int i=0;i<5;i++)line(t[i]);\
    s[1]=90;return s[1];} => 97 98 99 0 120 121 0 0 0  => Ended(90)
int main(void){for(int i=0;i<2;i++){char s[4]=\"ab\";putchar(s[0]);putchar(s[1]);line(s[2]);s[0]=s[1]=s[2]=88;}\
    return 0;} => ab0 ab0  => Ended(0)
void rev(char s[],int n){for(int i=0;i<n/2;i++){char t=s[i];s[i]=s[n-1-i];s[n-1-i]=t;}}int main(void){char \
    s[6]=\"abcde\";rev(s,5);for(int i=0;s[i];i++)putchar(s[i]);return 0;} => edcba => Ended(0)
int main(void){int a[6]={5,2,9,1,7,3};for(int i=1;i<6;i++){int x=a[i],j=i;while(j>0&&a[j-1]>x){a[j]=a[j-1];j--;}\
    a[j]=x;}for(int i=0;i<6;i++)line(a[i]);return a[5];} => 1 2 3 5 7 9  => Ended(9)
int main(void){int a[3]={1,2,3};int i=1;line(a[i++]);line(i[a]);line(2[\"abc\"]);line(a[a[0]]);a[--i]=a[i+1]+4;\
    return a[1];} => 2 3 99 2  => Ended(7)
static int sum(int a[],int n){int s=0;while(n-->0)s+=*a++;return s;} int main(void){int a[4]={1,2,3,4};\
    line(sum(a,4));return sum(a+1,2);} => 10  => Ended(5)
int main(void){char a[300];for(int i=0;i<300;i++)a[i]=i;line(a[130]);line(a[255]+a[256]);int k[1]={k[0]+3};return \
    k[0];} => -126 -1  => Ended(3)";

/// Pointers into arrays (C99 6.5.3.2, 6.5.6, 6.5.8 and 6.5.9).
pub(crate) const POINTERS: &str = "\
11 rows
int main(void){int a[5]={1,2,3,4,5};int *p=a+1,*q=&a[4];line(*p);line(q-p);line(p<q);line(*(q-2));line(p[2]);return \
    *q;} => 2 3 1 3 4  => Ended(5)
int main(void){int a[4]={1,2,3,4};int *p=a;line(*p++);line(*p);line(*++p);line(*p--);line((*p)++);line(*p);p+=2;\
    line(*p);p-=3;return *p;} => 1 2 3 3 2 3 4  => Ended(1)
int main(void){int a[2];int *p=0;line(p==0);line(!p);p=a;line(p!=0);line(p==a);line(p?1:2);line(p&&1);p=0;return \
    p==0;} => 1 1 1 1 1 1  => Ended(1)
int n(char *s){char *p=s;while(*p)p++;return p-s;} int main(void){line(n(\"hello\"));line(n(\"\"));line(*\"xyz\");\
    return n(\"ab\"\"cd\");} => 5 0 120  => Ended(4)
void set(int *p,int v){*p=v;} int main(void){int a[2];set(a,5);set(&a[1],6);set(&*a,a[0]+a[1]);line(a[0]);return \
    a[1];} => 11  => Ended(6)
int main(void){short a[3]={1,2,3};short *p=&a[2];*p+=70000;line(a[2]);*--p=9;line(a[1]);line(p-a);line(&a[3]-p);\
    return *p;} => 4467 9 1 2  => Ended(9)
int main(void){int a[3],b[3];int *p=a,*q=b;line(p==q);line(p!=q);line((1?p:q)==a);line((0?p:0)==0);return p==a&&q==b;\
    } => 0 1 1 1  => Ended(1)
int main(void){int a[3]={4,5,6};int *p=a;p=p+2147483647;p=p+2147483647;p=p+3;return *p;} =>  => Ended(5)
int f(int *p,int d){int a[2];a[0]=d;a[1]=p?p[0]:9;if(d<3)return f(a,d+1)*10+a[0];return a[1];} int main(void){return \
    f(0,1);} =>  => Ended(221)
int main(void){char s[4]=\"abc\";char *p=s;(*p)++;*(p+1)-=32;p[2]=*p;for(p=s;p<s+3;p++)putchar(*p);return p-s;} \
    => bBb => Ended(3)
int main(void){int a[3]={1,2,3};int *p=&a[0];int *q=p;q++;line(p<q);line(p<=p);line(q>p);line(q>=q);line(&a[1]==q);\
    return 1[p];} => 1 1 1 1 1  => Ended(2)";

/// Static objects and static locals (C99 6.2.4).
pub(crate) const STATICS: &str = "\
8 rows
int g=5; static char c=200; short s; int a[3]={1,2}; int main(void){line(g);line(c);line(s);line(a[1]+a[2]);g=a[0];\
    s=g+c;return s;} => 5 -56 0 2  => Ended(201)
int next(void){static int n=10;return n++;} int main(void){line(next());line(next());line(next());return next();} \
    => 10 11 12  => Ended(13)
int f(void){static int n;static char t[4]=\"ab\";t[2]=99;n++;t[0]+=n;return t[0];} int main(void){line(f());\
    line(f());return f();} => 98 100  => Ended(103)
char s[]=\"hey\"; int main(void){char *p=s;while(*p)putchar(*p++);s[0]=72;putchar(*s);return s[3];} \
    => heyH => Ended(0)
int g; void inc(void){g++;} int main(void){inc();inc();int x=g;inc();line(x);line(g);{int g=7;line(g);inc();}return \
    g;} => 2 3 7  => Ended(4)
int g=1; int set(int n){g=n;return n;} int main(void){line(g+set(5));line(set(2)+g);return g*10+set(3);} \
    => 6 4  => Ended(23)
static int a[4]; int main(void){for(int i=0;i<9;i++)a[i%4]+=i;int s=0;for(int i=0;i<4;i++)s=s*2+a[i];return s;} \
    =>  => Ended(146)
int x=1; static int y=2; int main(void){static int x=3;{static int x=4;line(x++);}line(x+y);return x;} \
    => 4 5  => Ended(3)";

/// `getchar`, `putchar` and `exit` (C99 7.19.7 and 7.20.4.3).
pub(crate) const OUTSIDE: &str = "\
7 rows
int main(void){int c;while((c=getchar())!=-1)putchar(c+1);line(c);return getchar()==-1;} <= HAL => IBM-1  => Ended(1)
int main(void){line(putchar(65));line(putchar(321));line(putchar(66)+1);exit(300);return 1;} \
    => A65 A65 B67  => Ended(44)
void f(int n){if(n==0)exit(7);line(n);f(n-1);} int main(void){f(3);return 1;} => 3 2 1  => Ended(7)
int main(void){int a=getchar(),b=getchar();line(a*b);if(getchar()==a)exit(-1);return getchar();} <= 2345 \
    => 2550  => Ended(53)
int main(void){char c=getchar();line(c);c=getchar();line(c);return c==-1?9:8;} <= ~ => 126 -1  => Ended(9)
int main(void){return -1;} =>  => Ended(255)
int w(void){int n=0,in=0,c;while((c=getchar())!=-1){if(c==32)in=0;else{if(!in)n++;in=1;}}return n;} int \
    main(void){return w();} <= the  four words  =>  => Ended(3)";

/// Programs that trap.
pub(crate) const TRAPS: &str = "\
13 rows
int main(void){int a=0;line(1);return 5/a;} => 1  => Trapped(Divide)
int main(void){int a=0;return 5%a;} =>  => Trapped(Divide)
int main(void){int a=-2147483647-1,b=-1;return a/b;} =>  => Trapped(Divide)
int main(void){int a=-2147483647-1;a%=-1;return a;} =>  => Trapped(Divide)
int main(void){int a[3];int i=3;line(2);return a[i];} => 2  => Trapped(Check)
int main(void){int a[3];int i=-1;a[i]=5;return 0;} =>  => Trapped(Check)
int main(void){int *p=0;line(3);return *p;} => 3  => Trapped(Check)
int main(void){int *p;p[0]=1;return 0;} =>  => Trapped(Check)
int main(void){int a[2],b[2];return a<b+1;} =>  => Trapped(Check)
int main(void){int a[2];int *p=0;return a-p;} =>  => Trapped(Check)
int f(int n){return n==0?0:f(n-1)+1;} int main(void){line(f(4000)%256);return f(5000);} => 160  => Trapped(Check)
char s[3]=\"abc\"; int n(char *p){int k=0;while(p[k])k++;return k;} int main(void){return n(s);} =>  => Trapped(Check)
int main(void){char *p=\"ab\";p+=4;line(p-\"ab\"==0);return 0;} =>  => Trapped(Check)";
